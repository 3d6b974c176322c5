// Reading a circuit file, record after record.
ghost use Rattle.std.specs.Prelude.{◌≡◌, true, false, length, None, vec_len, MatchResult, nat_le, nat_lt};
ghost use Rattle.std.specs.Option as Options;
ghost use Rattle.functions.specs.Function.{described};
ghost use Rattle.netlist.specs.Circuit.{all_below};
ghost use Rattle.netlist.specs.Plain.{plain_gate, plain_gates};
ghost use Rattle.records.specs.Record.{payload_of};
ghost use Rattle.netlist.specs.Rules.{head, gate, checks, first_of, first_broken, size_due, count_due};
ghost use Rattle.records.specs.Next.{rest, Taken};
ghost use Rattle.netlist.specs.Outcome.{LayoutDetermines, OneOutcome, TellsOnly, outcome_of};
ghost use Rattle.netlist.specs.Step.{Announces, FieldsOf, FunctionFault, GatesTaken, Stops, NotOfKind, Tells, Passed, Describes};
ghost use Rattle.netlist.specs.Kind.{kind_number};

use crate::circuit::Circuit;
use crate::fault::CircuitFault;
use crate::gate::{Gate, Net};
use crate::kind::Kind;
use functions::Function;
use records::{Reader, Record};
use std::alloc::Global;

// the most inputs that a circuit may have
const MOST_INPUTS: u8 = 16;

// the most gates that a circuit may have
const MOST_GATES: u8 = 240;

// the most pins that a gate may have
const MOST_PINS: usize = 8;

// Whether a pin is a net below the limit.
fn is_below(pin: Net, limit: usize) -> bool
    ensures { result ≡ nat_lt pin limit }
{
    usize::from(pin) < limit
}

// Whether every pin is a net below the limit.
fn all_below(pins: &[Net], limit: usize) -> bool
    ensures { result ≡ all_below limit pins.now }
{
    pins.iter().all(|pin| is_below(*pin, limit))
}

// The function of this code for so many pins. The pin counts stand at the codes, since a wrong count and a wrong code are
// refused apart.
fn function_of(place: usize, code: u8, pins: usize) -> Result<Function, CircuitFault>
    ensures { MatchResult result (λ f. ((described f).code ≡ code) × (nat_le code 7 ≡ true) × (count_due code pins ≡ true)) (λ e. FunctionFault e place code pins) }
{
    match code {
        0 if pins == 1 => Ok(Function::Buf),
        1 if pins == 1 => Ok(Function::Not),
        2 if pins >= 2 => Ok(Function::And),
        3 if pins >= 2 => Ok(Function::Nand),
        4 if pins >= 2 => Ok(Function::Or),
        5 if pins >= 2 => Ok(Function::Nor),
        6 if pins >= 2 => Ok(Function::Xor),
        7 if pins >= 2 => Ok(Function::Xnor),
        0..=7 => Err(CircuitFault::PinCount { place }),
        _ => Err(CircuitFault::Code { place }),
    }
}

// A gate's payload taken apart.
#[derive(Drop)]
struct GateFields<'a> {
    code: u8,
    least: u16,
    greatest: u16,
    pins: &'a [Net],
}

// The fields of a gate's payload, or none if it has no byte for a pin or too many. Each byte has a name, so that none is read
// by an index.
fn fields(payload: &[u8]) -> Option<GateFields<'_>>
    ensures { Options.MatchOption result (size_due (gate 0) (length payload.now) ≡ false) (λ f. FieldsOf payload.now f) }
{
    let [
        code,
        least_low,
        least_high,
        greatest_low,
        greatest_high,
        pins @ ..,
    ] = payload
    else {
        return None;
    };
    if !(1..=MOST_PINS).contains(&pins.len()) {
        return None;
    }
    Some(GateFields {
        code: *code,
        least: u16::from_le_bytes([*least_low, *least_high]),
        greatest: u16::from_le_bytes([*greatest_low, *greatest_high]),
        pins,
    })
}

// The gate that a payload describes, its own net having the number `own`.
fn gate_from(heap: Global, place: usize, payload: &[u8], own: usize) -> Result<Gate, CircuitFault>
    ensures { MatchResult result (λ g. (first_of (gate own) 2 payload.now (checks (gate own)) ≡ None) × Describes payload.now (plain_gate g)) (λ e. Tells e (first_of (gate own) 2 payload.now (checks (gate own))) place) }
{
    let fields = fields(payload).ok_or(CircuitFault::Size { place })?;
    let function = function_of(place, fields.code, fields.pins.len())?;
    if !all_below(fields.pins, own) {
        return Err(CircuitFault::Pin { place });
    }
    if fields.least > fields.greatest {
        return Err(CircuitFault::Delays { place });
    }
    Ok(Gate {
        function,
        least: fields.least,
        greatest: fields.greatest,
        pins: Vec::from_slice(heap, fields.pins)?,
    })
}

// What the head announces.
#[derive(Clone, Copy)]
struct Head {
    inputs: u8,
    gates: u8,
}

// The record at the reader's place, which is of the kind that is due. That the bytes stay is a clause here and below, and no fact of
// the reader's type: it speaks of the reader before and after.
fn read_record<'a>(reader: &mut Reader<'a>, due: Kind) -> Result<Record<'a>, CircuitFault>
    ensures same { reader.new.bytes.now ≡ reader.old.bytes.now }
    ensures taken { MatchResult result (λ r. Taken reader.old reader.new r × (r.kind ≡ kind_number due)) (λ e. NotOfKind (kind_number due) reader.old e) }
{
    let record = reader.next()?;
    match Kind::try_from(record.kind) {
        Ok(kind) if kind == due => Ok(record),
        _ => Err(CircuitFault::Kind {
            place: record.place,
        }),
    }
}

// The head, at the reader's place.
fn read_head(reader: &mut Reader<'_>) -> Result<Head, CircuitFault>
    ensures same { reader.new.bytes.now ≡ reader.old.bytes.now }
    ensures taken { MatchResult result (λ h. Passed head reader.old reader.new × Announces (payload_of (rest reader.old)) h) (λ e. Tells e (first_broken head (rest reader.old)) reader.old.at) }
{
    let Record { place, payload, .. } = read_record(reader, Kind::Head)?;
    let [inputs, gates] = payload else {
        return Err(CircuitFault::Size { place });
    };
    if !(1..=MOST_INPUTS).contains(inputs) || *gates > MOST_GATES {
        return Err(CircuitFault::Limits { place });
    }
    Ok(Head {
        inputs: *inputs,
        gates: *gates,
    })
}

// The gate at the reader's place, its own net having the number `own`.
fn read_gate(heap: Global, reader: &mut Reader<'_>, own: usize) -> Result<Gate, CircuitFault>
    ensures same { reader.new.bytes.now ≡ reader.old.bytes.now }
    ensures taken { MatchResult result (λ g. Passed (gate own) reader.old reader.new × Describes (payload_of (rest reader.old)) (plain_gate g)) (λ e. Tells e (first_broken (gate own) (rest reader.old)) reader.old.at) }
{
    let record = read_record(reader, Kind::Gate)?;
    gate_from(heap, record.place, record.payload, own)
}

// The gates that the head announces, one after the other from the reader's place.
fn read_gates(heap: Global, reader: &mut Reader<'_>, head: Head) -> Result<Vec<Gate>, CircuitFault>
    ensures same { reader.new.bytes.now ≡ reader.old.bytes.now }
    ensures taken { MatchResult result (λ v. GatesTaken reader.old.bytes.now reader.old.at head.inputs (plain_gates v.items) reader.new.at × (vec_len v ≡ head.gates)) (λ e. Stops e reader.old.bytes.now reader.old.at head.inputs head.gates) }
{
    let count = usize::from(head.gates);
    let first = usize::from(head.inputs);
    let mut gates = Vec::with_capacity(heap, count)?;
    for own in first..first + count {
        gates.push(read_gate(heap, reader, own)?)?;
    }
    Ok(gates)
}

impl Circuit {
    // The circuit that a file describes, and how many bytes of the file it used.
    pub fn read(heap: Global, bytes: &[u8]) -> Result<(Circuit, usize), CircuitFault>
        ensures outcome { TellsOnly bytes.now (outcome_of result) }
        ensures one { OneOutcome }
        ensures layout { LayoutDetermines }
    {
        let mut reader = Reader::new(bytes);
        let head = read_head(&mut reader)?;
        let gates = read_gates(heap, &mut reader, head)?;
        let used = reader.place();
        let circuit = Circuit {
            inputs: head.inputs,
            gates,
        };
        Ok((circuit, used))
    }
}
