// The lines behind the header by their sections, and which line is possible behind the lines before it.
ghost use Rattle.std.specs.Prelude.{◌≡◌, ◌≤◌, ◌<◌};
ghost use Rattle.circuit_line.specs.Section.{defines, is_possible, is_variable, section_of, width};

// The numbers of `aag M I L O A`.
#[derive(Clone, Copy)]
pub struct Header {
    pub maximum: usize,
    pub inputs: usize,
    pub latches: usize,
    pub outputs: usize,
    pub gates: usize,
}

#[derive(Clone, Copy)]
pub enum Section {
    Inputs,
    Latches,
    Outputs,
    Gates,
}

// The section of line k, counted from 0 behind the header.
pub fn section_of(header: Header, k: usize) -> Section
    requires { (header.inputs < 100000) × (header.latches < 100000) × (header.outputs < 100000) }
    ensures answer { result ≡ section_of header k }
{
    if k < header.inputs {
        return Section::Inputs;
    }
    if k < header.inputs + header.latches {
        return Section::Latches;
    }
    if k < header.inputs + header.latches + header.outputs {
        return Section::Outputs;
    }
    Section::Gates
}

// How many numbers the lines of a section have.
pub fn width(section: Section) -> usize
    ensures answer { result ≡ width section }
    ensures within { (1 ≤ result) × (result ≤ 3) }
{
    match section {
        Section::Inputs => 1,
        Section::Latches => 2,
        Section::Outputs => 1,
        Section::Gates => 3,
    }
}

// Whether its lines define their first literal.
pub fn defines(section: Section) -> bool
    ensures answer { result ≡ defines section }
{
    match section {
        Section::Inputs => true,
        Section::Latches => true,
        Section::Outputs => false,
        Section::Gates => true,
    }
}

// A variable's own literal, up to the maximum index.
fn is_variable(maximum: usize, literal: usize) -> bool
    requires { maximum < 100000 }
    ensures answer { result ≡ is_variable maximum literal }
{
    (literal % 2 == 0) & (2 <= literal) & (literal <= 2 * maximum)
}

// Whether a line with these numbers is possible; `taken` says whether the first of them is defined already.
pub fn is_possible(
    maximum: usize,
    taken: bool,
    section: Section,
    literal: usize,
    first: usize,
    second: usize,
) -> bool
    requires { maximum < 100000 }
    ensures answer { result ≡ is_possible maximum taken section literal first second }
{
    let is_new = is_variable(maximum, literal) & !taken;
    match section {
        Section::Inputs => is_new,
        Section::Latches => is_new & (first <= 2 * maximum + 1),
        Section::Outputs => literal <= 2 * maximum + 1,
        Section::Gates => is_new & ((first < literal) & (second < literal)),
    }
}
