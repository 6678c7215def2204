// One cycle of a circuit, from its file (02, 4).
#![tactic(auto)]

ghost use Rattle.std.specs.Prelude.{◌≡◌, length};
ghost use Rattle.tables.specs.Only.{TheOnlyPair};
ghost use Rattle.writing.specs.Answer.{Printed};
ghost use Rattle.circuit_file.specs.File.{circuit_in};
ghost use Rattle.simulator.specs.Simulation.{Cycles, IsCycle, Simulates, digits_outcome};
ghost use Rattle.circuit_file.specs.OfFile.{OfFile, table_with};

use circuit_line::section::Header;
use circuit_values::{Column, evaluate, put_values};
use tables::refusal::{Outcome, Reason, call_refused};
use text::digits::are_digits;
use writing::answer::Bytes;
use writing::deliver::too_short;

// The refusals of a call but for its room.
fn check_digits(header: Header, inputs: &[u8], latches: &[u8]) -> Outcome
    ensures answer { result ≡ digits_outcome header.inputs header.latches inputs.now latches.now }
{
    let digits = are_digits(inputs) & are_digits(latches);
    if !digits {
        return call_refused(Reason::WrongForm);
    }
    if inputs.len() != header.inputs {
        return call_refused(Reason::SignalsDiffer);
    }
    if latches.len() != header.latches {
        return call_refused(Reason::SizeDiffers);
    }
    Outcome::Accepted
}

// A cycle with as many inputs and latches as there are: the outputs, then the next latches, where there is room.
fn write_cycle(
    numbers: &[u32],
    header: Header,
    inputs: &[u8],
    latches: &[u8],
    buf: &mut [u8],
) -> Bytes
    requires of_file { OfFile (table_with header numbers.now) }
    requires digits { (length inputs.now ≡ header.inputs) × (length latches.now ≡ header.latches) }
    ensures prints { Printed (IsCycle (circuit_in (table_with header numbers.now)) inputs.now
        latches.now) buf.old buf.new result }
{
    if buf.len() < header.outputs + header.latches {
        return too_short();
    }
    let mut values = [false; 32770];
    evaluate(&mut values, numbers, header, inputs, latches);
    let outputs = Column {
        from: header.inputs + 2 * header.latches,
        width: 1,
        count: header.outputs,
    };
    let next_latches = Column {
        from: header.inputs + 1,
        width: 2,
        count: header.latches,
    };
    let end = put_values(buf, 0, &values, numbers, outputs);
    let total = put_values(buf, end, &values, numbers, next_latches);
    Bytes::Count(total)
}

// A cycle of the circuit in a table, of which the numbers and the header are given.
fn simulate_table(
    numbers: &[u32],
    header: Header,
    inputs: &[u8],
    latches: &[u8],
    buf: &mut [u8],
) -> Bytes
    requires { OfFile (table_with header numbers.now) }
    ensures cycles { Cycles (circuit_in (table_with header numbers.now)) inputs.now latches.now
        buf.old buf.new result }
{
    let outcome = check_digits(header, inputs, latches);
    match outcome {
        Outcome::Refused(refusal) => Bytes::Refused(refusal),
        Outcome::Accepted => write_cycle(numbers, header, inputs, latches, buf),
    }
}

// SERVICE: one cycle of the circuit of a file, from the inputs' and the latches' digits: those of the outputs, then of the next latches,
// written whole or not at all.
pub fn simulate(circuit: &[u8], inputs: &[u8], latches: &[u8], buf: &mut [u8]) -> Bytes
    ensures simulates { TheOnlyPair (Simulates circuit.now inputs.now latches.now
        buf.old) buf.new result }
{
    let read = circuit_file::read_circuit(circuit);
    let outcome = read.outcome;
    match outcome {
        Outcome::Refused(refusal) => Bytes::Refused(refusal),
        Outcome::Accepted => {
            let table = read.table;
            simulate_table(&table.numbers, table.header, inputs, latches, buf)
        }
    }
}
