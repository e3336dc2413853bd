#![tactic(auto)]

// One prepared node over the pixels of a lent slice, and refusal 15 (document 01, 'What a pixel goes through'; a Range with one end: document 02, W-202).
ghost use Rattle.std.specs.Prelude.{◌≡◌, false, ◌+◌, ◌<◌, T, length};
ghost use Rattle.std.specs.Float.Ieee.{le, is_nan};
ghost use Rattle.std.specs.Float.Ieee.Scale.{finite};
ghost use Rattle.pixel.specs.Range as Range;
ghost use Rattle.pixel.specs.OneEnd as OneEnd;
ghost use Rattle.pixel.specs.Matrix as Matrix;
ghost use Rattle.pixel.specs.Cdl as Cdl;
ghost use Rattle.room.specs.Room.{lent};
ghost use Rattle.pixel_lut.specs.Table as Table;
ghost use Rattle.pixel_cube.specs.Table as Cube;
ghost use Rattle.pixel_run.specs.Step as Step;
ghost use Rattle.pixel_run.specs.Prepare as Prepare;
ghost use Rattle.pixel_run.specs.Each as Each;
ghost use Rattle.pixel_run.specs.EachLaws as EachLaws;
ghost use Rattle.pixel_run.specs.Finite as Finite;
ghost use Rattle.pixel_run.specs.FiniteLaws as FiniteLaws;

use pixel::{CdlNumbers, Pixel};
use process_list::{Interpolation, RangeEnd};

// A prepared node: Range with its four numbers, CDL with its ten, Matrix, LUT1D and LUT3D with where theirs stand. A Range with one end has its limit alone.
// clamp: a Range's style is Clamp, an ASC_CDL's is Fwd. wide: a Matrix is 3x4.
#[derive(Clone, Copy)]
pub enum Prepared {
    Range {
        min_in: f64,
        max_in: f64,
        min_out: f64,
        max_out: f64,
        clamp: bool,
    },
    Cdl {
        slope_r: f64,
        slope_g: f64,
        slope_b: f64,
        offset_r: f64,
        offset_g: f64,
        offset_b: f64,
        power_r: f64,
        power_g: f64,
        power_b: f64,
        saturation: f64,
        clamp: bool,
    },
    Matrix {
        at: usize,
        wide: bool,
    },
    Lut1d {
        at: usize,
        entries: usize,
        columns: usize,
    },
    Lut3d {
        at: usize,
        points: usize,
        interpolation: Interpolation,
    },
    OneEnd {
        end: RangeEnd,
        limit: f64,
    },
}

// A Range whose four numbers stand in the room from at on.
pub fn prepare_range(coefficients: &[i64], powers: &[i8], at: usize, clamp: bool) -> Prepared
    ensures { result ≡ Prepare.range_from (lent coefficients.now powers.now) at clamp }
{
    Prepared::Range {
        min_in: pixel_room::number_from(coefficients, powers, at, 0),
        max_in: pixel_room::number_from(coefficients, powers, at, 1),
        min_out: pixel_room::number_from(coefficients, powers, at, 2),
        max_out: pixel_room::number_from(coefficients, powers, at, 3),
        clamp,
    }
}

// A Range with one end whose two numbers stand in the room from at on. The limit is its in value; in a valid list its out value equals it.
pub fn prepare_one_end(coefficients: &[i64], powers: &[i8], at: usize, end: RangeEnd) -> Prepared
    ensures { result ≡ Prepare.one_end_from (lent coefficients.now powers.now) at end }
{
    Prepared::OneEnd {
        end,
        limit: pixel_room::number_from(coefficients, powers, at, 0),
    }
}

// An ASC_CDL whose ten numbers stand in the room from at on.
pub fn prepare_cdl(coefficients: &[i64], powers: &[i8], at: usize, clamp: bool) -> Prepared
    ensures { result ≡ Prepare.cdl_from (lent coefficients.now powers.now) at clamp }
{
    Prepared::Cdl {
        slope_r: pixel_room::number_from(coefficients, powers, at, 0),
        slope_g: pixel_room::number_from(coefficients, powers, at, 1),
        slope_b: pixel_room::number_from(coefficients, powers, at, 2),
        offset_r: pixel_room::number_from(coefficients, powers, at, 3),
        offset_g: pixel_room::number_from(coefficients, powers, at, 4),
        offset_b: pixel_room::number_from(coefficients, powers, at, 5),
        power_r: pixel_room::number_from(coefficients, powers, at, 6),
        power_g: pixel_room::number_from(coefficients, powers, at, 7),
        power_b: pixel_room::number_from(coefficients, powers, at, 8),
        saturation: pixel_room::number_from(coefficients, powers, at, 9),
        clamp,
    }
}

// Every pixel of the slice taken through a step, three components at a time; one or two at the end are no pixel and stay.
// It counts, since after `chunks_exact_mut` or `as_chunks_mut` nothing but the slice's length is known, and so its proof didn't close.
fn each_pixel<F: Fn(Pixel) -> Pixel>(pixels: &mut [f64], step: F)
    requires callable { F.IsAlwaysCallable step }
    ensures { (f : _) → EachLaws.Computes (F.post step) f → pixels.new ≡ Each.each_pixel f pixels.old }
{
    for k in 0..pixels.len() / 3 {
        let i = 3 * k;
        let y = step(Pixel {
            r: pixels[i],
            g: pixels[i + 1],
            b: pixels[i + 2],
        });
        pixels[i] = y.r;
        pixels[i + 1] = y.g;
        pixels[i + 2] = y.b;
    }
}

// Clamp's bound: whatever stood there, a NaN too, every pixel lies between min_out and max_out.
fn run_range(pixels: &mut [f64], min_in: f64, max_in: f64, min_out: f64, max_out: f64, clamp: bool)
    ensures pixels_after { pixels.new ≡ Each.each_pixel (Range.range_pixel min_in max_in min_out max_out clamp) pixels.old }
    ensures each_within { T clamp → T (le min_out max_out) → Each.EachWithin min_out max_out pixels.new }
{
    each_pixel(
        pixels,
        |x| pixel::range_pixel(min_in, max_in, min_out, max_out, clamp, x),
    );
}

// A limit that is no NaN: whatever stood there, a NaN too, no component is beyond it or a NaN.
fn run_one_end(pixels: &mut [f64], end: RangeEnd, limit: f64)
    ensures pixels_after { pixels.new ≡ Each.each_pixel (OneEnd.limited_pixel end limit) pixels.old }
    ensures each_inside { is_nan limit ≡ false → Each.EachInside end limit pixels.new }
{
    each_pixel(pixels, |x| pixel::limited_pixel(end, limit, x));
}

fn run_matrix(pixels: &mut [f64], rows: [[f64; 4]; 3], wide: bool)
    ensures { pixels.new ≡ Each.each_pixel (Matrix.matrix_pixel rows wide) pixels.old }
{
    each_pixel(pixels, |x| pixel::matrix_pixel(rows, wide, x));
}

// An ASC_CDL: with both scales 1 and style Fwd the loop tests neither.
fn run_cdl(pixels: &mut [f64], numbers: CdlNumbers, clamp: bool, in_scale: f64, out_scale: f64)
    ensures { pixels.new ≡ Each.each_pixel (Cdl.cdl_pixel numbers.slope_r numbers.slope_g numbers.slope_b numbers.offset_r numbers.offset_g numbers.offset_b numbers.saturation clamp in_scale out_scale) pixels.old }
{
    if clamp && in_scale == 1.0 && out_scale == 1.0 {
        each_pixel(pixels, |x| pixel::cdl_pixel(numbers, true, 1.0, 1.0, x));
    } else {
        each_pixel(
            pixels,
            |x| pixel::cdl_pixel(numbers, clamp, in_scale, out_scale, x),
        );
    }
}

fn run_lut1d(
    pixels: &mut [f64],
    coefficients: &[i64],
    powers: &[i8],
    at: usize,
    entries: usize,
    columns: usize,
    in_scale: f64,
)
    ensures { pixels.new ≡ Each.each_pixel (Table.lut1d_pixel (lent coefficients.now powers.now) at entries columns in_scale) pixels.old }
{
    each_pixel(
        pixels,
        |x| pixel_lut::lut1d_pixel(coefficients, powers, at, entries, columns, in_scale, x),
    );
}

fn run_lut3d(
    pixels: &mut [f64],
    coefficients: &[i64],
    powers: &[i8],
    at: usize,
    points: usize,
    interpolation: Interpolation,
    in_scale: f64,
)
    ensures { pixels.new ≡ Each.each_pixel (Cube.lut3d_pixel (lent coefficients.now powers.now) at points interpolation in_scale) pixels.old }
{
    each_pixel(
        pixels,
        |x| pixel_cube::lut3d_pixel(coefficients, powers, at, points, interpolation, in_scale, x),
    );
}

// One node over all pixels of the slice.
pub fn run_node(
    pixels: &mut [f64],
    p: Prepared,
    rows: [[f64; 4]; 3],
    in_scale: f64,
    out_scale: f64,
    coefficients: &[i64],
    powers: &[i8],
)
    ensures pixels_after { pixels.new ≡ Each.each_pixel (Step.step_pixel p rows in_scale out_scale (lent coefficients.now powers.now)) pixels.old }
    ensures clamp_holds { Step.ClampHolds p pixels.new }
{
    match p {
        Prepared::Range {
            min_in,
            max_in,
            min_out,
            max_out,
            clamp,
        } => run_range(pixels, min_in, max_in, min_out, max_out, clamp),
        Prepared::Cdl {
            slope_r,
            slope_g,
            slope_b,
            offset_r,
            offset_g,
            offset_b,
            power_r: _,
            power_g: _,
            power_b: _,
            saturation,
            clamp,
        } => {
            let numbers = CdlNumbers {
                slope_r,
                slope_g,
                slope_b,
                offset_r,
                offset_g,
                offset_b,
                saturation,
            };
            run_cdl(pixels, numbers, clamp, in_scale, out_scale)
        }
        Prepared::Matrix { at: _, wide } => run_matrix(pixels, rows, wide),
        Prepared::Lut1d {
            at,
            entries,
            columns,
        } => run_lut1d(pixels, coefficients, powers, at, entries, columns, in_scale),
        Prepared::Lut3d {
            at,
            points,
            interpolation,
        } => run_lut3d(
            pixels,
            coefficients,
            powers,
            at,
            points,
            interpolation,
            in_scale,
        ),
        Prepared::OneEnd { end, limit } => run_one_end(pixels, end, limit),
    }
}

// Whether every component is finite; none ends the loop early, so that many are tested at a time. As `fold` over the bool it took 1.2 times as long.
fn all_finite(pixels: &[f64]) -> bool
    ensures { result ≡ FiniteLaws.all_finite pixels.now }
{
    let mut ok = true;
    for x in pixels {
        if !x.is_finite() {
            ok = false;
        }
    }
    ok
}

// The index of the first component that is a NaN or an infinity; the length if there is none.
pub fn first_not_finite(pixels: &[f64]) -> usize
    ensures { result ≡ Finite.first_not_finite pixels.now }
{
    if all_finite(pixels) {
        return pixels.len();
    }
    // As `position` the search took 1.5 times as long.
    for (i, value) in pixels.iter().enumerate() {
        if !value.is_finite() {
            return i;
        }
    }
    pixels.len()
}
