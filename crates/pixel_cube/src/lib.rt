#![tactic(auto)]

// What a pixel goes through in a LUT3D (document 02, W-201), whose entries are numbers of the table room.
ghost use Rattle.std.specs.Prelude.{◌≡◌, false, [], ◌∷◌, ◌+◌, ◌≤◌, ◌<◌};
ghost use Rattle.std.specs.Float.Ieee.{eq};
ghost use Rattle.room.specs.Room.{lent};
ghost use Rattle.pixel.specs.F64 as F64;
ghost use Rattle.pixel_lut.specs.Lut1d as Lut1d;
ghost use Rattle.pixel_cube.specs.Cube as Cube;
ghost use Rattle.pixel_cube.specs.Table as Table;
ghost use Rattle.pixel_cube.specs.Corners as Corners;
ghost use Rattle.pixel_cube.specs.Ways as Ways;

use pixel::{CodeValue, Fractions, Pixel};
use pixel_lut::AxisPlace;
use process_list::Interpolation;

#[derive(Clone, Copy, Debug, PartialEq, Eq)]
pub enum Axis {
    Red,
    Green,
    Blue,
}

// A corner of a cell, by its index on each axis. Behind the last index there is no entry; a corner that is used has one.
#[derive(Clone, Copy, Debug, PartialEq, Eq)]
pub struct Corner {
    pub red: usize,
    pub green: usize,
    pub blue: usize,
}

// The cell of the table in which a pixel lies: its place on each axis.
#[derive(Clone, Copy)]
struct Cell {
    red: AxisPlace,
    green: AxisPlace,
    blue: AxisPlace,
}

// The three axes in the order in which they are taken.
#[derive(Clone, Copy)]
struct Order {
    first: Axis,
    second: Axis,
    third: Axis,
}

// A step along an axis: how far, and the corner to which it leads. With part 0 there is no step, and it is the corner before.
#[derive(Clone, Copy)]
struct Leg {
    part: f64,
    to: Corner,
}

// The walk of the tetrahedral method from the low corner on.
#[derive(Clone, Copy)]
struct Walk {
    low: Corner,
    first: Leg,
    second: Leg,
    third: Leg,
}

// How far a walk has come on one component: the sum, the entry of the last corner, and the smallest and the largest entry so far.
#[derive(Clone, Copy)]
struct Sum {
    sum: f64,
    before: f64,
    smallest: f64,
    largest: f64,
}

// One component of the entry of a corner, which lies in the table. Not a call of its own: the trilinear method took 1.3 times as long.
#[inline(always)]
fn entry(
    coefficients: &[i64],
    powers: &[i8],
    at: usize,
    n: usize,
    component: usize,
    c: Corner,
) -> f64
    requires n_bound { n ≤ 33 }
    requires component_bound { component < 3 }
    requires inside { Corners.Inside n c }
    ensures { result ≡ Table.entry_at (lent coefficients.now powers.now) at n component c }
{
    let place = (c.red * n + c.green) * n + c.blue;
    pixel_room::number_from(coefficients, powers, at, place * 3 + component)
}

// ---- trilinear

// LUT1D's step from a place on an axis: its entry, and the next one only where the part is not 0.
// The closures below own what they capture: by reference the trilinear method took 1.07 times as long, the tetrahedral one 1.02 times.
fn along<E: Fn(usize) -> f64>(place: AxisPlace, entry: E) -> f64
    requires few { place.index < 65536 }
    requires first { E.pre entry place.index }
    requires next { eq place.part F64.zero ≡ false → E.pre entry (place.index + 1) }
    ensures { (e : _) → Ways.Gives (E.post entry) place e → result ≡ Ways.along e place }
{
    let e = entry(place.index);
    if place.part == 0.0 {
        return e;
    }
    pixel_lut::interpolated(e, entry(place.index + 1), place.part)
}

// Along blue from the entry at i on red and j on green.
fn along_blue(
    coefficients: &[i64],
    powers: &[i8],
    at: usize,
    n: usize,
    component: usize,
    i: usize,
    j: usize,
    blue: AxisPlace,
) -> f64
    requires n_bound { n ≤ 33 }
    requires component_bound { component < 3 }
    requires i_lt_n { i < n }
    requires j_lt_n { j < n }
    requires place_inside { Ways.PlaceInside n blue }
    ensures { result ≡ Ways.blue_way (Table.entry_at (lent coefficients.now powers.now) at n component) blue i j }
{
    along(
        blue,
        move |k| entry(
            coefficients,
            powers,
            at,
            n,
            component,
            Corner {
                red: i,
                green: j,
                blue: k,
            },
        ),
    )
}

// Along green, and before that along blue, from index i on red.
fn along_green(
    coefficients: &[i64],
    powers: &[i8],
    at: usize,
    n: usize,
    component: usize,
    i: usize,
    green: AxisPlace,
    blue: AxisPlace,
) -> f64
    requires n_bound { n ≤ 33 }
    requires component_bound { component < 3 }
    requires i_lt_n { i < n }
    requires place_inside { Ways.PlaceInside n green }
    requires place_inside_2 { Ways.PlaceInside n blue }
    ensures { result ≡ Ways.green_way (Table.entry_at (lent coefficients.now powers.now) at n component) green blue i }
{
    along(
        green,
        move |j| along_blue(coefficients, powers, at, n, component, i, j, blue),
    )
}

// Along blue, then green, then red.
fn trilinear(
    coefficients: &[i64],
    powers: &[i8],
    at: usize,
    n: usize,
    component: usize,
    cell: Cell,
) -> CodeValue
    requires n_bound { n ≤ 33 }
    requires component_bound { component < 3 }
    requires cell_inside { Ways.CellInside n cell }
    ensures { result ≡ Ways.red_way (Table.entry_at (lent coefficients.now powers.now) at n component) cell }
{
    CodeValue(along(
        cell.red,
        move |i| along_green(
            coefficients,
            powers,
            at,
            n,
            component,
            i,
            cell.green,
            cell.blue,
        ),
    ))
}

// ---- tetrahedral

fn part_on(cell: Cell, a: Axis) -> f64
    ensures { result ≡ Ways.part_on cell a }
{
    match a {
        Axis::Red => cell.red.part,
        Axis::Green => cell.green.part,
        Axis::Blue => cell.blue.part,
    }
}

fn low(cell: Cell) -> Corner
    ensures { result ≡ Ways.low_of cell }
{
    Corner {
        red: cell.red.index,
        green: cell.green.index,
        blue: cell.blue.index,
    }
}

// Red put into the order of the other two.
fn with_red(cell: Cell, first: Axis, second: Axis) -> Order
    ensures { Ways.listed result ≡ Cube.insert_axis (Ways.part_on cell) Axis.Red (first ∷ second ∷ []) }
{
    let red = part_on(cell, Axis::Red);
    if part_on(cell, first) <= red {
        return Order {
            first: Axis::Red,
            second: first,
            third: second,
        };
    }
    if part_on(cell, second) <= red {
        return Order {
            first,
            second: Axis::Red,
            third: second,
        };
    }
    Order {
        first,
        second,
        third: Axis::Red,
    }
}

// The axes by falling part; of equal ones red goes first, then green.
fn order_of(cell: Cell) -> Order
    ensures { Ways.listed result ≡ Cube.falling (Ways.part_on cell) Cube.all_axes }
{
    let green = part_on(cell, Axis::Green);
    let blue = part_on(cell, Axis::Blue);
    if blue <= green {
        return with_red(cell, Axis::Green, Axis::Blue);
    }
    with_red(cell, Axis::Blue, Axis::Green)
}

// One step along an axis from the corner c.
fn raised(cell: Cell, c: Corner, a: Axis) -> Corner
    requires { Ways.FewIn cell }
    ensures { result ≡ Cube.raised (Ways.low_of cell) c a }
{
    match a {
        Axis::Red => Corner {
            red: cell.red.index + 1,
            ..c
        },
        Axis::Green => Corner {
            green: cell.green.index + 1,
            ..c
        },
        Axis::Blue => Corner {
            blue: cell.blue.index + 1,
            ..c
        },
    }
}

// From the corner c along an axis; where the part there is 0, it stays at c.
fn leg_from(cell: Cell, c: Corner, a: Axis) -> Leg
    requires { Ways.FewIn cell }
    ensures { result ≡ Ways.leg_from cell c a }
{
    let part = part_on(cell, a);
    if part == 0.0 {
        return Leg { part, to: c };
    }
    Leg {
        part,
        to: raised(cell, c, a),
    }
}

// The walk along all axes, by falling part.
fn walk_in(cell: Cell) -> Walk
    requires { Ways.FewIn cell }
    ensures { Ways.WalkIn cell result }
{
    let axes = order_of(cell);
    let a = axes.first;
    let b = axes.second;
    let c = axes.third;
    let low = low(cell);
    let first = leg_from(cell, low, a);
    let second = leg_from(cell, first.to, b);
    let third = leg_from(cell, second.to, c);
    Walk {
        low,
        first,
        second,
        third,
    }
}

// The library's min and max answer otherwise for a NaN, so the two are written out.
fn smaller(a: f64, b: f64) -> f64
    ensures { result ≡ Lut1d.smaller a b }
{
    if b < a { b } else { a }
}

fn larger(a: f64, b: f64) -> f64
    ensures { result ≡ Lut1d.larger a b }
{
    if b < a { a } else { b }
}

// One step more. A term whose part is 0 is left out with its corner.
fn added(
    coefficients: &[i64],
    powers: &[i8],
    at: usize,
    n: usize,
    component: usize,
    s: Sum,
    l: Leg,
) -> Sum
    requires n_bound { n ≤ 33 }
    requires component_bound { component < 3 }
    requires inside { Corners.Inside n l.to }
    ensures { result ≡ Ways.added (Table.entry_at (lent coefficients.now powers.now) at n component) s l }
{
    let part = l.part;
    if part == 0.0 {
        return s;
    }
    let e = entry(coefficients, powers, at, n, component, l.to);
    Sum {
        sum: s.sum + part * (e - s.before),
        before: e,
        smallest: smaller(s.smallest, e),
        largest: larger(s.largest, e),
    }
}

// The sum over a walk, held between the smallest and the largest entry that it met.
fn tetrahedral(
    coefficients: &[i64],
    powers: &[i8],
    at: usize,
    n: usize,
    component: usize,
    w: Walk,
) -> CodeValue
    requires n_bound { n ≤ 33 }
    requires component_bound { component < 3 }
    requires walk_inside { Ways.WalkInside n w }
    ensures { result ≡ Ways.walked (Table.entry_at (lent coefficients.now powers.now) at n component) w.low (Ways.legs_of w) }
{
    let e = entry(coefficients, powers, at, n, component, w.low);
    let start = Sum {
        sum: e,
        before: e,
        smallest: e,
        largest: e,
    };
    let first = added(coefficients, powers, at, n, component, start, w.first);
    let second = added(coefficients, powers, at, n, component, first, w.second);
    let third = added(coefficients, powers, at, n, component, second, w.third);
    CodeValue(pixel::hold(third.sum, third.smallest, third.largest))
}

// ---- either method

// A pixel of what a way answers on each component.
fn each_component<W: Fn(usize) -> CodeValue>(way: W) -> Pixel
    requires red { W.pre way 0 }
    requires green { W.pre way 1 }
    requires blue { W.pre way 2 }
    ensures { (f : _) → Ways.GivesEach (W.post way) f → result ≡ Ways.of_each f }
{
    Pixel {
        r: way(0).0,
        g: way(1).0,
        b: way(2).0,
    }
}

fn interpolated_all(
    coefficients: &[i64],
    powers: &[i8],
    at: usize,
    n: usize,
    interpolation: Interpolation,
    cell: Cell,
) -> Pixel
    requires n_bound { n ≤ 33 }
    requires cell_inside { Ways.CellInside n cell }
    ensures { result ≡ Ways.each_of (Table.entry_at (lent coefficients.now powers.now) at n) (λ e. Ways.way_by interpolation e cell) }
{
    match interpolation {
        Interpolation::Trilinear => {
            each_component(move |k| trilinear(coefficients, powers, at, n, k, cell))
        }
        Interpolation::Tetrahedral => {
            let w = walk_in(cell);
            each_component(move |k| tetrahedral(coefficients, powers, at, n, k, w))
        }
    }
}

// Whether n is from 2 to 33 and a room has a table of n entries on each axis, three numbers for each, from number at on.
fn cube_in(room: usize, at: usize, n: usize) -> bool
    ensures { result ≡ Table.cube_in room at n }
{
    if n < 2 || n > 33 {
        return false;
    }
    pixel_lut::fits(room, at, n * n * n * 3)
}

fn cell_of(n: usize, x: Fractions) -> Cell
    ensures { result ≡ Ways.cell_of n x }
{
    Cell {
        red: pixel_lut::on_axis(n, x.r),
        green: pixel_lut::on_axis(n, x.g),
        blue: pixel_lut::on_axis(n, x.b),
    }
}

// A pixel through a LUT3D whose table, of points entries on each axis, stands in the room from number at on.
pub fn lut3d_pixel(
    coefficients: &[i64],
    powers: &[i8],
    at: usize,
    points: usize,
    interpolation: Interpolation,
    in_scale: f64,
    x: Pixel,
) -> Pixel
    ensures value { result ≡ Table.lut3d_pixel (lent coefficients.now powers.now) at points interpolation in_scale x }
    ensures lut_keeps { Corners.LutKeeps (lent coefficients.now powers.now) at points interpolation in_scale x result }
{
    let count = room::length(coefficients, powers);
    if !cube_in(count, at, points) {
        return x;
    }
    let cell = cell_of(points, pixel::to_fractions(in_scale, x));
    interpolated_all(coefficients, powers, at, points, interpolation, cell)
}
