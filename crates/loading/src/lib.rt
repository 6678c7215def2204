// The files that the programs read, by their names in the working folder. Each is read into its table before the next is loaded, so
// one buffer serves them all; here alone stand its size and the files' names and order.
#![tactic(auto)]

ghost use Rattle.std.specs.Prelude.{List, ◌≡◌, length, ℕ, ◌<◌};
ghost use Rattle.rule_file.specs.Rule.{parse_rule, rule_answer};
ghost use Rattle.take_file.specs.Take.{parse_take, take_answer};
ghost use Rattle.sheet_file.specs.Sheet.{parse_sheet, sheet_answer};
ghost use Rattle.rule_and_take.specs.File.{WasRead};

use rule_and_take::Pair;
use rule_file::rule::RuleAnswer;
use sheet_file::sheet::SheetAnswer;
use std::rt::Files;
use take_file::take::TakeAnswer;

fn load_rule<R: Files>(rt: &R, space: &mut [u8]) -> RuleAnswer
    requires { 65536 < length space.old }
    ensures read { (file : List ℕ) × (result ≡ rule_answer (parse_rule file)) }
{
    let n = files::load(rt, b"rule.txt", &mut *space);
    rule_file::rule::read_rule(&space[..n])
}

fn load_take<R: Files>(rt: &R, space: &mut [u8]) -> TakeAnswer
    requires { 65536 < length space.old }
    ensures read { (file : List ℕ) × (result ≡ take_answer (parse_take file)) }
{
    let n = files::load(rt, b"take.txt", &mut *space);
    take_file::take::read_take(&space[..n])
}

fn load_sheet<R: Files>(rt: &R, space: &mut [u8]) -> SheetAnswer
    requires { 65536 < length space.old }
    ensures read { (file : List ℕ) × (result ≡ sheet_answer (parse_sheet file)) }
{
    let n = files::load(rt, b"sheet.txt", &mut *space);
    sheet_file::sheet::read_sheet(&space[..n])
}

// `rule.txt`, as it was read.
pub fn rule<R: Files>(rt: &R) -> RuleAnswer
    ensures read { (file : List ℕ) × (result ≡ rule_answer (parse_rule file)) }
{
    let mut space = [0u8; 65537];
    load_rule(rt, &mut space)
}

// `rule.txt` and `take.txt`.
pub fn pair<R: Files>(rt: &R) -> Pair
    ensures read { WasRead result }
{
    let mut space = [0u8; 65537];
    let first = load_rule(rt, &mut space);
    let second = load_take(rt, &mut space);
    rule_and_take::join(first, second)
}

// `sheet.txt`.
pub fn sheet<R: Files>(rt: &R) -> SheetAnswer
    ensures read { (file : List ℕ) × (result ≡ sheet_answer (parse_sheet file)) }
{
    let mut space = [0u8; 65537];
    load_sheet(rt, &mut space)
}
