// What the programs print: `judge RULE TAKE`, `sheet RULE TAKE`, `check_sheet RULE TAKE SHEET`.
use crate::{case, show};
use std::io;
use std::io::Write;
use std::rt::Files;

fn judge<R: Files, W: Write>(rt: &R, out: &mut W, case: &[u8]) -> io::Result<()> {
    let mut rule = [0u8; 65537];
    let n = case::load(rt, case, 1, &mut rule);
    let mut take = [0u8; 65537];
    let m = case::load(rt, case, 2, &mut take);
    let mut text = [0u8; 64];
    let answer = judge_text::judge(&rule[..n], &take[..m], &mut text);
    show::text(out, answer, &text)
}

fn sheet<R: Files, W: Write>(rt: &R, out: &mut W, case: &[u8]) -> io::Result<()> {
    let mut rule = [0u8; 65537];
    let n = case::load(rt, case, 1, &mut rule);
    let mut take = [0u8; 65537];
    let m = case::load(rt, case, 2, &mut take);
    let mut text = [0u8; 33567];
    let answer = sheet_text::sheet(&rule[..n], &take[..m], &mut text);
    show::text(out, answer, &text)
}

fn check_sheet<R: Files, W: Write>(rt: &R, out: &mut W, case: &[u8]) -> io::Result<()> {
    let mut rule = [0u8; 65537];
    let n = case::load(rt, case, 1, &mut rule);
    let mut take = [0u8; 65537];
    let m = case::load(rt, case, 2, &mut take);
    let mut sheet = [0u8; 65537];
    let k = case::load(rt, case, 3, &mut sheet);
    let mut text = [0u8; 64];
    let answer = check_text::check(&rule[..n], &take[..m], &sheet[..k], &mut text);
    show::text(out, answer, &text)
}

// Whether the case is one of these; if so, it is tried.
#[inline(never)]
pub fn tried<R: Files, W: Write>(rt: &R, out: &mut W, case: &[u8]) -> io::Result<bool> {
    if case::names(case, b"judge") {
        judge(rt, out, case)?;
        return Ok(true);
    }
    if case::names(case, b"sheet") {
        sheet(rt, out, case)?;
        return Ok(true);
    }
    if case::names(case, b"check_sheet") {
        check_sheet(rt, out, case)?;
        return Ok(true);
    }
    Ok(false)
}
