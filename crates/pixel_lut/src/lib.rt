#![tactic(auto)]

// What a pixel goes through in a LUT1D (document 01, 'What a pixel goes through'), whose entries are numbers of the table room.
ghost use Rattle.std.specs.Prelude.{◌≡◌, ◌+◌, ◌*◌, ◌<◌, ◌≤◌, true, T, nat_le};
ghost use Rattle.std.specs.Float.Ieee.{le};
ghost use Rattle.pixel.specs.F64 as F64;
ghost use Rattle.room.specs.Room.{lent, room_length};
ghost use Rattle.pixel_lut.specs.Floor as Floor;
ghost use Rattle.pixel_lut.specs.Lut1d as Lut1d;
ghost use Rattle.pixel_lut.specs.Table as Table;

use pixel::{CodeValue, Fraction, Fractions, Pixel};

// Where a fraction falls on an axis of entries: `index`, the last entry at or before it, and `part`, how far behind that entry it lies, 0 at the entry itself.
#[derive(Clone, Copy, Debug, PartialEq)]
pub struct AxisPlace {
    pub index: usize,
    pub part: f64,
}

fn position(n: usize, x: Fraction) -> f64
    requires le_n { 2 ≤ n }
    requires n_bound { n ≤ 65536 }
    ensures { result ≡ Lut1d.position n x }
{
    pixel::hold_unit(x.0) * ((n - 1) as f64)
}

// The largest index up to top that is at most p.
fn floor_to(top: usize, p: f64) -> usize
    requires top_bound { top < 65536 }
    requires t { T (Floor.plain_float p) }
    requires t_2 { T (le p (F64.whole top)) }
    ensures { result ≡ Lut1d.floor_to top p }
{
    std::num::truncating_f64_to_u64(p) as usize
}

// The place on an axis of n entries, for each axis of a LUT3D. LUT1D works both numbers out by itself, which is faster there.
pub fn on_axis(n: usize, x: Fraction) -> AxisPlace
    ensures { result ≡ Lut1d.on_axis n x }
{
    if n < 2 || n > 65536 {
        return AxisPlace {
            index: 0,
            part: 0.0,
        };
    }
    let p = position(n, x);
    let index = floor_to(n - 1, p);
    AxisPlace {
        index,
        part: p - (index as f64),
    }
}

// From entry e to the next one by the part f, held between the smaller and the larger of the two.
pub fn interpolated(e: f64, next: f64, f: f64) -> f64
    ensures { result ≡ Lut1d.interpolated e next f }
{
    let y = e + f * (next - e);
    if next < e {
        return pixel::hold(y, next, e);
    }
    pixel::hold(y, e, next)
}

fn entry(
    coefficients: &[i64],
    powers: &[i8],
    at: usize,
    n: usize,
    columns: usize,
    column: usize,
    i: usize,
) -> f64
    requires columns_bound { at + n * columns ≤ room_length (lent coefficients.now powers.now) }
    requires column_lt_columns { column < columns }
    requires i_lt_n { i < n }
    ensures { result ≡ Table.entry_at (lent coefficients.now powers.now) at columns column i }
{
    pixel_room::number_from(coefficients, powers, at, i * columns + column)
}

fn looked_up(
    coefficients: &[i64],
    powers: &[i8],
    at: usize,
    n: usize,
    columns: usize,
    column: usize,
    x: Fraction,
) -> CodeValue
    requires le_n { 2 ≤ n }
    requires n_bound { n ≤ 65536 }
    requires columns_bound { at + n * columns ≤ room_length (lent coefficients.now powers.now) }
    requires column_lt_columns { column < columns }
    ensures { result ≡ Lut1d.looked_up (Table.entry_at (lent coefficients.now powers.now) at columns column) n x }
{
    let p = position(n, x);
    let i = floor_to(n - 1, p);
    let f = p - (i as f64);
    let e = entry(coefficients, powers, at, n, columns, column, i);
    if i == n - 1 || f == 0.0 {
        return CodeValue(e);
    }
    let next = entry(coefficients, powers, at, n, columns, column, i + 1);
    CodeValue(interpolated(e, next, f))
}

fn column_of(columns: usize, component: usize) -> usize
    ensures { result ≡ Table.column_of columns component }
{
    if columns == 3 {
        return component;
    }
    0
}

fn looked_up_all(
    coefficients: &[i64],
    powers: &[i8],
    at: usize,
    n: usize,
    columns: usize,
    x: Fractions,
) -> Pixel
    requires { Table.table_in (room_length (lent coefficients.now powers.now)) at n columns ≡ true }
    ensures { result ≡ Table.looked_up_all (lent coefficients.now powers.now) at n columns x }
{
    let red = column_of(columns, 0);
    let green = column_of(columns, 1);
    let blue = column_of(columns, 2);
    Pixel {
        r: looked_up(coefficients, powers, at, n, columns, red, x.r).0,
        g: looked_up(coefficients, powers, at, n, columns, green, x.g).0,
        b: looked_up(coefficients, powers, at, n, columns, blue, x.b).0,
    }
}

// Whether a room has count numbers from number at on.
pub fn fits(room: usize, at: usize, count: usize) -> bool
    ensures { result ≡ nat_le (at + count) room }
{
    at <= room && count <= room - at
}

// Whether a room has a table of n entries in 1 or 3 columns from number at on.
fn table_in(room: usize, at: usize, n: usize, columns: usize) -> bool
    ensures { result ≡ Table.table_in room at n columns }
{
    if n < 2 || n > 65536 {
        return false;
    }
    if columns == 1 || columns == 3 {
        return fits(room, at, n * columns);
    }
    false
}

pub fn lut1d_pixel(
    coefficients: &[i64],
    powers: &[i8],
    at: usize,
    n: usize,
    columns: usize,
    in_scale: f64,
    x: Pixel,
) -> Pixel
    ensures { result ≡ Table.lut1d_pixel (lent coefficients.now powers.now) at n columns in_scale x }
{
    let count = room::length(coefficients, powers);
    if table_in(count, at, n, columns) {
        let fractions = pixel::to_fractions(in_scale, x);
        return looked_up_all(coefficients, powers, at, n, columns, fractions);
    }
    x
}
