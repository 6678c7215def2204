// The values of a circuit's variables in a cycle, by their index; index 0 is the constant false.
#![tactic(auto)]

ghost use Rattle.std.specs.Prelude.{◌+◌, ◌*◌, ◌/◌, ◌^◌, ◌≤◌, ◌<◌, ◌≡◌, false, length, get_or};
ghost use Rattle.text.specs.Written.{digits_text};
ghost use Rattle.writing.specs.Lent.{Wrote};
ghost use Rattle.circuit.specs.Valuation.{IsValuation};
ghost use Rattle.circuit_file.specs.File.{circuit_in};
ghost use Rattle.circuit_file.specs.OfFile.{OfFile, table_with};
ghost use Rattle.circuit_values.specs.Values.{Distinct, Evaluated, GatePlaces, LiteralsWithin, Scattered, Spread};
ghost use Rattle.text.specs.Digits.{value_at};
ghost use Rattle.circuit_values.specs.Values.{value_of, values_at, variable_at};

use circuit_line::section::Header;
use writing::put::put_bit;

// Literals at equal distances among the numbers of a table.
#[derive(Clone, Copy)]
pub struct Column {
    pub from: usize,
    pub width: usize,
    pub count: usize,
}

impl Column {
    // The place of literal i.
    fn place(self, i: usize) -> usize
        requires { self.from + self.width * i < 2 ^ 64 }
        ensures place { result ≡ self.from + self.width * i }
    {
        self.from + self.width * i
    }
}

// The value of a literal.
fn value(values: &[bool], literal: u32) -> bool
    requires { literal / 2 < length values.now }
    ensures answer { result ≡ value_of values.now literal }
{
    let own = values[(literal / 2) as usize];
    if literal % 2 == 0 { own } else { !own }
}

// The digits' values go to the variables of the literals of a column.
fn put_given(values: &mut [bool], numbers: &[u32], column: Column, digits: &[u8])
    requires spread { Spread numbers.now column.from column.width (length digits.now) }
    requires distinct { Distinct (length digits.now) (variable_at numbers.now column.from column.width) (length values.old) }
    ensures given { Scattered false (length digits.now) (variable_at numbers.now column.from column.width)
        (value_at digits.now) values.old values.new }
{
    for (i, digit) in digits.iter().enumerate() {
        let literal = numbers[column.place(i)];
        values[(literal / 2) as usize] = *digit == b'1';
    }
}

// By variable, the place of its gate's first operand.
fn put_places(places: &mut [u16], numbers: &[u32], gates: Column)
    requires spread { Spread numbers.now gates.from gates.width gates.count × (length numbers.now < 65536) }
    requires distinct { Distinct gates.count (variable_at numbers.now gates.from gates.width) (length places.old) }
    ensures places { Scattered 0 gates.count (variable_at numbers.now gates.from gates.width) (λ i. gates.from + gates.width * i + 1)
        places.old places.new }
{
    for i in 0..gates.count {
        let place = gates.place(i);
        let literal = numbers[place];
        places[(literal / 2) as usize] = (place + 1) as u16;
    }
}

// The gates' values, from the lowest variable up, since operands are lower.
fn put_gates(values: &mut [bool], places: &[u16], numbers: &[u32], maximum: usize)
    requires { (maximum < length values.old) × (maximum < length places.now) × GatePlaces maximum places.now numbers.now }
    ensures evaluated { Evaluated maximum places.now numbers.now values.old values.new }
{
    for (x, place) in places[..=maximum].iter().enumerate() {
        let place = *place as usize;
        // Stays: 0 for no gate, as `GatePlaces` says: an Option would double the table, and there is no heap.
        if place != 0 {
            let first = value(values, numbers[place]);
            let second = value(values, numbers[place + 1]);
            values[x] = first & second;
        }
    }
}

// All of them, in a table in which none is on.
pub fn evaluate(values: &mut [bool], numbers: &[u32], header: Header, inputs: &[u8], latches: &[u8])
    requires of_file { OfFile (table_with header numbers.now) }
    requires digits { (length inputs.now ≡ header.inputs) × (length latches.now ≡ header.latches) }
    requires none_on { (length values.old ≡ 32770) × (get_or values.old 0 false ≡ false) }
    ensures values { IsValuation (circuit_in (table_with header numbers.now)) (value_at inputs.now)
        (value_at latches.now) (value_of values.new) }
    ensures size { length values.new ≡ 32770 }
{
    let own_inputs = Column {
        from: 0,
        width: 1,
        count: header.inputs,
    };
    let own_latches = Column {
        from: header.inputs,
        width: 2,
        count: header.latches,
    };
    let gates = Column {
        from: header.inputs + 2 * header.latches + header.outputs,
        width: 3,
        count: header.gates,
    };
    let mut places = [0u16; 32770];
    put_places(&mut places, numbers, gates);
    put_given(values, numbers, own_inputs, inputs);
    put_given(values, numbers, own_latches, latches);
    put_gates(values, &places, numbers, header.maximum);
}

// The digits of the literals of a column.
pub fn put_values(
    buf: &mut [u8],
    at: usize,
    values: &[bool],
    numbers: &[u32],
    column: Column,
) -> usize
    requires room { Spread numbers.now column.from column.width column.count × (at + column.count ≤ length buf.old) }
    requires literals_within { LiteralsWithin numbers.now column.from column.width column.count (length values.now) }
    ensures text { Wrote buf.old at (digits_text (values_at values.now numbers.now column.from column.width column.count))
        buf.new result }
{
    let mut end = at;
    for i in 0..column.count {
        let on = value(values, numbers[column.place(i)]);
        end = put_bit(buf, end, on);
    }
    end
}
