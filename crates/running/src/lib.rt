#![tactic(auto)]

// Running pixels through a list (document 01, 'What a pixel goes through'): refusals 16, 14 and 15, then every node over the lent slice.
ghost use Rattle.std.specs.Prelude.{◌≡◌, true, Ok};
ghost use Rattle.process_list.specs.List as List;
ghost use Rattle.room.specs.Room.{lent};
ghost use Rattle.running.specs.Running as Spec;

use pixel_run::Prepared;
use process_list::{Kind, Node, ProcessList};

// Why pixels are not run: list and room are no reading, the slice is no multiple of three, or the component at this index is NaN or infinite.
#[derive(Clone, Copy, Debug, PartialEq, Eq)]
pub enum RunFault {
    NoReading,
    NotThrees,
    NotFinite(usize),
}

impl RunFault {
    // The refusal number.
    pub fn number(self) -> u8
        ensures { result ≡ Spec.fault_number self }
    {
        match self {
            RunFault::NoReading => refusals::NO_READING,
            RunFault::NotThrees => refusals::NOT_THREES,
            RunFault::NotFinite(_) => refusals::NOT_FINITE,
        }
    }

    // The place: the index of a component, or 0.
    pub fn place(self) -> usize
        ensures { result ≡ Spec.fault_place self }
    {
        match self {
            RunFault::NoReading => 0,
            RunFault::NotThrees => 0,
            RunFault::NotFinite(index) => index,
        }
    }
}

// The refusal number and the place that an answer says: 0 and 0 where the pixels have run.
pub fn told(ran: Result<(), RunFault>) -> (u8, usize)
    ensures { result ≡ (Spec.ran_number ran, Spec.ran_place ran) }
{
    match ran {
        Ok(()) => (0, 0),
        Err(fault) => (fault.number(), fault.place()),
    }
}

// A node of this kind whose numbers stand in the room from at on, prepared.
fn prepared(kind: Kind, at: usize, coefficients: &[i64], powers: &[i8]) -> Prepared
    ensures { result ≡ Spec.prepared_as (lent coefficients.now powers.now) at kind }
{
    match kind {
        Kind::Matrix { wide } => Prepared::Matrix { at, wide },
        Kind::Lut1d { entries, columns } => Prepared::Lut1d {
            at,
            entries,
            columns,
        },
        Kind::Range { style } => {
            pixel_run::prepare_range(coefficients, powers, at, process_list::range_clamps(style))
        }
        Kind::Cdl { style } => {
            pixel_run::prepare_cdl(coefficients, powers, at, process_list::cdl_clamps(style))
        }
        Kind::Lut3d {
            points,
            interpolation,
        } => Prepared::Lut3d {
            at,
            points,
            interpolation,
        },
        Kind::OneEnd { end } => pixel_run::prepare_one_end(coefficients, powers, at, end),
    }
}

// The rows that are handed over beside a prepared node: a Matrix's, from where it says that they stand, and zeros for the other kinds.
fn rows(step: Prepared, coefficients: &[i64], powers: &[i8]) -> [[f64; 4]; 3]
    ensures { result ≡ Spec.rows_as (lent coefficients.now powers.now) step }
{
    if let Prepared::Matrix { at, wide } = step {
        return pixel_room::rows_from(coefficients, powers, at, wide);
    }
    [[0.0; 4]; 3]
}

// One node over all pixels of the slice.
fn run_one(node: Node, coefficients: &[i64], powers: &[i8], pixels: &mut [f64])
    ensures { pixels.new ≡ Spec.run_node (lent coefficients.now powers.now) node pixels.old }
{
    let step = prepared(node.kind, node.at, coefficients, powers);
    pixel_run::run_node(
        pixels,
        step,
        rows(step, coefficients, powers),
        process_list::scale(node.input),
        process_list::scale(node.output),
        coefficients,
        powers,
    );
}

// The nodes of the list over the slice, one after the other.
fn run_all(list: ProcessList, coefficients: &[i64], powers: &[i8], pixels: &mut [f64])
    ensures { pixels.new ≡ Spec.run_nodes (lent coefficients.now powers.now) (List.nodes_of list) pixels.old }
{
    let count = process_list::held(list);
    for node in &list.nodes[..count] {
        run_one(*node, coefficients, powers, pixels);
    }
}

// Runs the pixels of the slice, three components a pixel, through the list; refused, nothing changes. Where it is accepted, the table of every LUT1D and LUT3D
// stands in the room; and where the last node is a Range with one end, nothing that comes out is beyond its limit, or a NaN. A call of its own: its copies of the list
// take no stack while a file is read.
#[inline(never)]
pub fn run(
    list: ProcessList,
    coefficients: &[i64],
    powers: &[i8],
    pixels: &mut [f64],
) -> Result<(), RunFault>
    ensures value { result ≡ Spec.ran_of list (lent coefficients.now powers.now) pixels.old }
    ensures pixels_after { pixels.new ≡ Spec.pixels_of list (lent coefficients.now powers.now) pixels.old }
    ensures list_value { result ≡ Ok tt → Spec.tables_stand (lent coefficients.now powers.now) (List.nodes_of list) ≡ true }
    ensures last_end_holds { result ≡ Ok tt → Spec.LastEndHolds (lent coefficients.now powers.now) (List.nodes_of list) pixels.new }
{
    if !valid::valid(list, coefficients, powers) {
        return Err(RunFault::NoReading);
    }
    if pixels.len() % 3 != 0 {
        return Err(RunFault::NotThrees);
    }
    let first = pixel_run::first_not_finite(pixels);
    if first < pixels.len() {
        return Err(RunFault::NotFinite(first));
    }
    run_all(list, coefficients, powers, pixels);
    Ok(())
}
