// The services for programs in C and Rust (include/citronhelm.h): files in as bytes, an answer out as one number, and output into a
// lent buffer. No state but a run's, which is bytes that the caller keeps; nothing asked of the caller. A slice passes as a pointer and a
// length.
#![tactic(auto)]

ghost use Rattle.std.specs.Prelude.{[], ◌≡◌, length};
ghost use Rattle.text.specs.Result.{outcome_of};
ghost use Rattle.rule_file.specs.Rule.{parse_rule};
ghost use Rattle.take_file.specs.Take.{parse_take};
ghost use Rattle.sheet_file.specs.Sheet.{parse_sheet};
ghost use Rattle.normal_form.specs.Numbering.{normal_form};
ghost use Rattle.normal_form.specs.declared.sign.Sign.TheVariants.{Plain};
ghost use Rattle.normal_file.specs.Answer.{bound_of, output as normalText};
ghost use Rattle.meeting.specs.Meeting.{meeting_outcome};
ghost use Rattle.meeting.specs.declared.Wanted.TheVariants.{Either, Looped, Unlooped};
ghost use Rattle.step.specs.Step.{form_answer, form_left};
ghost use Rattle.answer_code.specs.Code.{bytes_code, outcome_code, refusal_code, sign_of};
ghost use Rattle.rule_and_take.specs.File.{OnFile, OnPair};
ghost use Rattle.run_state.specs.State.{state_of};
ghost use Rattle.circuit_writer.specs.Answer.{circuit_text};
ghost use Rattle.citronhelm.specs.Service.{CheckedAs, CycleAs, JudgedAs, MadeAs, MeasuredAs, PrintedAs, SimulatedAs, Turned};
ghost use Rattle.citronhelm.specs.Service.{VerdictAs, WrittenAs};

use meeting::Wanted;
use normal_form::sign::Sign;
use tables::refusal::Outcome;

// Whether a file is a rule file, a take file, a sheet file.
#[unsafe(no_mangle)]
pub extern "C" fn citronhelm_read_rule(rule: &[u8]) -> u64
    ensures answer { result ≡ outcome_code (outcome_of 1 (parse_rule rule.now)) }
{
    let read = rule_file::rule::read_rule(rule);
    let outcome = read.outcome;
    answer_code::outcome_code(outcome)
}

#[unsafe(no_mangle)]
pub extern "C" fn citronhelm_read_take(take: &[u8]) -> u64
    ensures answer { result ≡ outcome_code (outcome_of 2 (parse_take take.now)) }
{
    let read = take_file::take::read_take(take);
    let outcome = read.outcome;
    answer_code::outcome_code(outcome)
}

#[unsafe(no_mangle)]
pub extern "C" fn citronhelm_read_sheet(sheet: &[u8]) -> u64
    ensures answer { result ≡ outcome_code (outcome_of 3 (parse_sheet sheet.now)) }
{
    let read = sheet_file::sheet::read_sheet(sheet);
    let outcome = read.outcome;
    answer_code::outcome_code(outcome)
}

// A bound on the length of the normal form's file.
#[unsafe(no_mangle)]
pub extern "C" fn citronhelm_bound(rule: &[u8]) -> u64
    ensures answer { OnFile 1 (parse_rule rule.now) (λ why. result ≡ refusal_code why) (λ f. result ≡ bound_of f) }
{
    let read = rule_file::rule::read_rule(rule);
    let outcome = read.outcome;
    match outcome {
        Outcome::Refused(refusal) => answer_code::refusal_code(refusal),
        Outcome::Accepted => normal_file::bound_of(read.formula) as u64,
    }
}

// How many rows the normal form has.
#[unsafe(no_mangle)]
pub extern "C" fn citronhelm_rows(rule: &[u8]) -> u64
    ensures answer { OnFile 1 (parse_rule rule.now) (λ why. result ≡ refusal_code why) (λ f. result ≡ (normal_form f Plain).rows) }
{
    let read = rule_file::rule::read_rule(rule);
    let outcome = read.outcome;
    match outcome {
        Outcome::Refused(refusal) => answer_code::refusal_code(refusal),
        Outcome::Accepted => {
            let form = normal_form::normal_form(read.formula, Sign::Plain);
            form.rows as u64
        }
    }
}

// The file of the normal form, that of the negated rule where `negated` is not 0.
#[unsafe(no_mangle)]
pub extern "C" fn citronhelm_normal(rule: &[u8], negated: u8, output: &mut [u8]) -> u64
    ensures answer { OnFile 1 (parse_rule rule.now) (Turned output.old output.new result)
        (λ f. WrittenAs (normalText f (sign_of negated)) output.old output.new result) }
{
    let read = rule_file::rule::read_rule(rule);
    let outcome = read.outcome;
    match outcome {
        Outcome::Refused(refusal) => answer_code::refusal_code(refusal),
        Outcome::Accepted => {
            let sign = answer_code::sign_named(negated);
            answer_code::bytes_code(normal_file::write_form(read.formula, sign, output))
        }
    }
}

// How long that file is, exactly.
#[unsafe(no_mangle)]
pub extern "C" fn citronhelm_normal_length(rule: &[u8], negated: u8) -> u64
    ensures answer { OnFile 1 (parse_rule rule.now) (λ why. result ≡ refusal_code why)
        (λ f. result ≡ length (normalText f (sign_of negated))) }
{
    let read = rule_file::rule::read_rule(rule);
    let outcome = read.outcome;
    match outcome {
        Outcome::Refused(refusal) => answer_code::refusal_code(refusal),
        Outcome::Accepted => {
            let sign = answer_code::sign_named(negated);
            normal_length::measure_form(read.formula, sign) as u64
        }
    }
}

// The verdict on a rule and a take of either kind; of a looped one; of an open one.
#[unsafe(no_mangle)]
pub extern "C" fn citronhelm_judge(rule: &[u8], take: &[u8]) -> u64
    ensures answer { OnPair (parse_rule rule.now) (parse_take take.now) (λ why. result ≡ refusal_code why)
        (λ f t. JudgedAs (meeting_outcome Either f t) f t result) }
{
    let pair = rule_and_take::read_pair(rule, take);
    let outcome = pair.outcome;
    match outcome {
        Outcome::Refused(refusal) => answer_code::refusal_code(refusal),
        Outcome::Accepted => answer_code::judge_code(judging::judge_met(
            pair.formula,
            pair.trace,
            Wanted::Either,
        )),
    }
}

#[unsafe(no_mangle)]
pub extern "C" fn citronhelm_judge_looped(rule: &[u8], take: &[u8]) -> u64
    ensures answer { OnPair (parse_rule rule.now) (parse_take take.now) (λ why. result ≡ refusal_code why)
        (λ f t. JudgedAs (meeting_outcome Looped f t) f t result) }
{
    let pair = rule_and_take::read_pair(rule, take);
    let outcome = pair.outcome;
    match outcome {
        Outcome::Refused(refusal) => answer_code::refusal_code(refusal),
        Outcome::Accepted => answer_code::judge_code(judging::judge_met(
            pair.formula,
            pair.trace,
            Wanted::Looped,
        )),
    }
}

#[unsafe(no_mangle)]
pub extern "C" fn citronhelm_judge_open(rule: &[u8], take: &[u8]) -> u64
    ensures answer { OnPair (parse_rule rule.now) (parse_take take.now) (λ why. result ≡ refusal_code why)
        (λ f t. JudgedAs (meeting_outcome Unlooped f t) f t result) }
{
    let pair = rule_and_take::read_pair(rule, take);
    let outcome = pair.outcome;
    match outcome {
        Outcome::Refused(refusal) => answer_code::refusal_code(refusal),
        Outcome::Accepted => answer_code::judge_code(judging::judge_met(
            pair.formula,
            pair.trace,
            Wanted::Unlooped,
        )),
    }
}

// The text of program `judge`.
#[unsafe(no_mangle)]
pub extern "C" fn citronhelm_judge_text(rule: &[u8], take: &[u8], output: &mut [u8]) -> u64
    ensures answer { PrintedAs rule.now take.now output.old output.new result }
{
    answer_code::bytes_code(judge_text::judge(rule, take, output))
}

// One cycle of a rule's monitors.
#[unsafe(no_mangle)]
pub extern "C" fn citronhelm_step(
    rule: &[u8],
    pendings: &[u8],
    activators: &[u8],
    signals: &[u8],
    output: &mut [u8],
) -> u64
    ensures answer { OnFile 1 (parse_rule rule.now) (Turned output.old output.new result)
        (λ f. (result ≡ bytes_code (form_answer (normal_form f Plain) pendings.now activators.now signals.now
        output.old))
        × (output.new ≡ form_left (normal_form f Plain) pendings.now activators.now signals.now
        output.old)) }
{
    let read = rule_file::rule::read_rule(rule);
    let outcome = read.outcome;
    match outcome {
        Outcome::Refused(refusal) => answer_code::refusal_code(refusal),
        Outcome::Accepted => answer_code::bytes_code(step::step_met(
            read.formula,
            pendings,
            activators,
            signals,
            output,
        )),
    }
}

// The file of the circuit of a rule's monitors.
#[unsafe(no_mangle)]
pub extern "C" fn citronhelm_circuit(rule: &[u8], output: &mut [u8]) -> u64
    ensures answer { OnFile 1 (parse_rule rule.now) (Turned output.old output.new result)
        (λ f. WrittenAs (circuit_text f) output.old output.new result) }
{
    let read = rule_file::rule::read_rule(rule);
    let outcome = read.outcome;
    match outcome {
        Outcome::Refused(refusal) => answer_code::refusal_code(refusal),
        Outcome::Accepted => answer_code::bytes_code(circuit_writer::write_form(
            read.formula,
            output,
        )),
    }
}

// One cycle of the circuit of a file.
#[unsafe(no_mangle)]
pub extern "C" fn citronhelm_simulate(
    circuit: &[u8],
    inputs: &[u8],
    latches: &[u8],
    output: &mut [u8],
) -> u64
    ensures answer { SimulatedAs circuit.now inputs.now latches.now output.old
        output.new result }
{
    answer_code::bytes_code(simulator::simulate(circuit, inputs, latches, output))
}

// The sheet of a rule and a take.
#[unsafe(no_mangle)]
pub extern "C" fn citronhelm_make_sheet(rule: &[u8], take: &[u8], output: &mut [u8]) -> u64
    ensures answer { OnPair (parse_rule rule.now) (parse_take take.now)
        (Turned output.old output.new result) (λ f t. MadeAs f t output.old output.new result) }
{
    let pair = rule_and_take::read_pair(rule, take);
    let outcome = pair.outcome;
    match outcome {
        Outcome::Refused(refusal) => answer_code::refusal_code(refusal),
        Outcome::Accepted => answer_code::maker_code(sheet_maker::make_met(
            pair.formula,
            pair.trace,
            output,
        )),
    }
}

// How long that sheet is, exactly; 0 where there is none.
#[unsafe(no_mangle)]
pub extern "C" fn citronhelm_sheet_length(rule: &[u8], take: &[u8]) -> u64
    ensures answer { OnPair (parse_rule rule.now) (parse_take take.now) (λ why. result ≡ refusal_code why)
        (λ f t. MeasuredAs f t result) }
{
    let pair = rule_and_take::read_pair(rule, take);
    let outcome = pair.outcome;
    match outcome {
        Outcome::Refused(refusal) => answer_code::refusal_code(refusal),
        Outcome::Accepted => answer_code::bytes_code(sheet_length::measure_met(
            pair.formula,
            pair.trace,
        )),
    }
}

// What a check of a sheet finds.
#[unsafe(no_mangle)]
pub extern "C" fn citronhelm_check_sheet(rule: &[u8], take: &[u8], sheet: &[u8]) -> u64
    ensures answer { OnPair (parse_rule rule.now) (parse_take take.now) (λ why. result ≡ refusal_code why)
        (λ f t. OnFile 3 (parse_sheet sheet.now) (λ why. result ≡ refusal_code why) (λ a. CheckedAs f t a result)) }
{
    let pair = rule_and_take::read_pair(rule, take);
    let outcome = pair.outcome;
    match outcome {
        Outcome::Refused(refusal) => answer_code::refusal_code(refusal),
        Outcome::Accepted => {
            let third = sheet_file::sheet::read_sheet(sheet);
            let own = third.outcome;
            match own {
                Outcome::Refused(refusal) => answer_code::refusal_code(refusal),
                Outcome::Accepted => answer_code::check_code(checking::check_met(
                    pair.formula,
                    pair.trace,
                    third.activation,
                )),
            }
        }
    }
}

// A run begins with a rule file; it takes a cycle, as its digits; the open verdict on the cycles so far.
#[unsafe(no_mangle)]
pub extern "C" fn citronhelm_run_begin(rule: &[u8], run: &mut [u8]) -> u64
    ensures answer { OnFile 1 (parse_rule rule.now) (Turned run.old run.new result)
        (λ f. WrittenAs (state_of f []) run.old run.new result) }
{
    answer_code::bytes_code(run_state::begin(rule, run))
}

#[unsafe(no_mangle)]
pub extern "C" fn citronhelm_run_cycle(run: &mut [u8], digits: &[u8]) -> u64
    ensures answer { CycleAs run.old digits.now run.new result }
{
    answer_code::outcome_code(run_state::take_cycle(run, digits))
}

#[unsafe(no_mangle)]
pub extern "C" fn citronhelm_run_verdict(run: &[u8]) -> u64
    ensures answer { VerdictAs run.now result }
{
    answer_code::judge_code(run_state::verdict(run))
}
