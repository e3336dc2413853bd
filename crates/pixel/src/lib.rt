#![tactic(auto)]

// What a pixel goes through in a Range, a Matrix and an ASC_CDL (document 01, 'What a pixel goes through'), and in a Range with one end (document 02, W-202).
ghost use Rattle.std.specs.Prelude.{◌≡◌, true, T};
ghost use Rattle.std.specs.Float.Ieee.{lt, le};
ghost use Rattle.pixel.specs.Bounds as Bounds;
ghost use Rattle.pixel.specs.F64 as F64;
ghost use Rattle.pixel.specs.Hold as Hold;
ghost use Rattle.pixel.specs.OrderedHold as OrderedHold;
ghost use Rattle.pixel.specs.UnitHold as UnitHold;
ghost use Rattle.pixel.specs.Scale as Scale;
ghost use Rattle.pixel.specs.Range as Range;
ghost use Rattle.pixel.specs.OneEnd as OneEnd;
ghost use Rattle.pixel.specs.OneEndLaws as OneEndLaws;
ghost use Rattle.pixel.specs.Matrix as Matrix;
ghost use Rattle.pixel.specs.Cdl as Cdl;

use process_list::RangeEnd;

// A pixel travels as one record of three f64: its code values.
#[derive(Clone, Copy, Debug, PartialEq)]
pub struct Pixel {
    pub r: f64,
    pub g: f64,
    pub b: f64,
}

// A code value counts in a node's depth.
#[derive(Clone, Copy, Debug, PartialEq)]
pub struct CodeValue(pub f64);

// A fraction runs from black to full scale.
#[derive(Clone, Copy, Debug, PartialEq)]
pub struct Fraction(pub f64);

// A pixel's three components as fractions.
#[derive(Clone, Copy, Debug, PartialEq)]
pub struct Fractions {
    pub r: Fraction,
    pub g: Fraction,
    pub b: Fraction,
}

// The numbers of an ASC_CDL that a pixel meets: slopes and offsets of red, green and blue, and the saturation.
#[derive(Clone, Copy, Debug, PartialEq)]
pub struct CdlNumbers {
    pub slope_r: f64,
    pub slope_g: f64,
    pub slope_b: f64,
    pub offset_r: f64,
    pub offset_g: f64,
    pub offset_b: f64,
    pub saturation: f64,
}

// Hold of x between lo and hi. A NaN gives lo, where the library's clamp, min and max pass it on or let a -0 through; so the holds here are written out.
pub fn hold(x: f64, lo: f64, hi: f64) -> f64
    ensures { result ≡ Hold.hold x lo hi }
{
    if x > hi {
        return hi;
    }
    if x > lo {
        return x;
    }
    lo
}

fn at_most(x: f64, hi: f64) -> f64
    ensures { result ≡ OrderedHold.not_above x hi }
{
    if x > hi {
        return hi;
    }
    x
}

// Hold between lo and hi: a minimum and a maximum, since lo is below hi.
fn hold_ordered(x: f64, lo: f64, hi: f64) -> f64
    requires { lt lo hi ≡ true }
    ensures { result ≡ Hold.hold x lo hi }
{
    let z = at_most(x, hi);
    if z > lo {
        return z;
    }
    lo
}

// Hold between any lo and hi. Its first test is of the bounds alone, so that a loop over pixels can make it once.
fn quick_hold(x: f64, lo: f64, hi: f64) -> f64
    ensures { result ≡ Hold.hold x lo hi }
{
    if lo < hi {
        return hold_ordered(x, lo, hi);
    }
    hold(x, lo, hi)
}

// A code value as a fraction and back, by the scale of its depth alone.
pub fn to_fraction(scale: f64, v: CodeValue) -> Fraction
    ensures { result ≡ Scale.to_fraction scale v }
{
    if scale == 1.0 {
        return Fraction(v.0);
    }
    Fraction(v.0 / scale)
}

pub fn to_code_value(scale: f64, x: Fraction) -> CodeValue
    ensures { result ≡ Scale.to_code_value scale x }
{
    if scale == 1.0 {
        return CodeValue(x.0);
    }
    CodeValue(x.0 * scale)
}

pub fn to_fractions(scale: f64, x: Pixel) -> Fractions
    ensures { result ≡ Scale.to_fractions scale x }
{
    Fractions {
        r: to_fraction(scale, CodeValue(x.r)),
        g: to_fraction(scale, CodeValue(x.g)),
        b: to_fraction(scale, CodeValue(x.b)),
    }
}

pub fn to_code_values(scale: f64, x: Fractions) -> Pixel
    ensures { result ≡ Scale.to_code_values scale x }
{
    Pixel {
        r: to_code_value(scale, x.r).0,
        g: to_code_value(scale, x.g).0,
        b: to_code_value(scale, x.b).0,
    }
}

pub fn range_scale(min_in: f64, max_in: f64, min_out: f64, max_out: f64) -> f64
    ensures { result ≡ Range.range_scale min_in max_in min_out max_out }
{
    (max_out - min_out) / (max_in - min_in)
}

pub fn range_shift(min_in: f64, min_out: f64, s: f64) -> f64
    ensures { result ≡ Range.range_shift min_in min_out s }
{
    min_out - min_in * s
}

// Clamp's bound: for every x, a NaN too, the answer lies between min_out and max_out.
pub fn range_line(
    s: f64,
    shift: f64,
    min_out: f64,
    max_out: f64,
    clamp: bool,
    x: CodeValue,
) -> CodeValue
    ensures value { result ≡ Range.range_line s shift min_out max_out clamp x }
    ensures between { T clamp → T (le min_out max_out) → Bounds.Between min_out max_out result.0 }
{
    let out = x.0 * s + shift;
    if clamp {
        return CodeValue(quick_hold(out, min_out, max_out));
    }
    CodeValue(out)
}

pub fn range_pixel(
    min_in: f64,
    max_in: f64,
    min_out: f64,
    max_out: f64,
    clamp: bool,
    x: Pixel,
) -> Pixel
    ensures value { result ≡ Range.range_pixel min_in max_in min_out max_out clamp x }
    ensures within { T clamp → T (le min_out max_out) → Bounds.Within min_out max_out result }
{
    let s = range_scale(min_in, max_in, min_out, max_out);
    let shift = range_shift(min_in, min_out, s);
    Pixel {
        r: range_line(s, shift, min_out, max_out, clamp, CodeValue(x.r)).0,
        g: range_line(s, shift, min_out, max_out, clamp, CodeValue(x.g)).0,
        b: range_line(s, shift, min_out, max_out, clamp, CodeValue(x.b)).0,
    }
}

// Whether x stays at this limit: it is at least the minimum, or at most the maximum. -0 stays at 0, and a NaN nowhere.
fn stays(end: RangeEnd, limit: f64, x: f64) -> bool
    ensures { result ≡ OneEndLaws.stays end limit x }
{
    match end {
        RangeEnd::Minimum => x >= limit,
        RangeEnd::Maximum => x <= limit,
    }
}

// A Range with one end: x beyond the limit, or a NaN, becomes the limit; everything else stays as it is. The first test is of the limit alone, so that a loop
// over pixels can make it once: nothing is beyond a NaN, which does not equal itself.
fn limited(end: RangeEnd, limit: f64, x: CodeValue) -> CodeValue
    ensures { result ≡ OneEnd.limited end limit x }
{
    if limit != limit {
        return x;
    }
    if stays(end, limit, x.0) {
        return x;
    }
    CodeValue(limit)
}

// The promise: where the limit is no NaN, no component is beyond it or a NaN afterwards; one that was neither keeps its bits.
pub fn limited_pixel(end: RangeEnd, limit: f64, x: Pixel) -> Pixel
    ensures value { result ≡ OneEnd.limited_pixel end limit x }
    ensures keeps_end_pixel { OneEnd.KeepsEndPixel end limit x result }
{
    Pixel {
        r: limited(end, limit, CodeValue(x.r)).0,
        g: limited(end, limit, CodeValue(x.g)).0,
        b: limited(end, limit, CodeValue(x.b)).0,
    }
}

// One output component: a row of a Matrix, whose fourth number counts only if the Matrix is wide, 3x4.
pub fn row_out(row: [f64; 4], wide: bool, x: Pixel) -> CodeValue
    ensures { result ≡ Matrix.row_out row wide x }
{
    let sum = x.r * row[0] + x.g * row[1] + x.b * row[2];
    if wide {
        return CodeValue(sum + row[3]);
    }
    CodeValue(sum)
}

pub fn matrix_pixel(rows: [[f64; 4]; 3], wide: bool, x: Pixel) -> Pixel
    ensures { result ≡ Matrix.matrix_pixel rows wide x }
{
    Pixel {
        r: row_out(rows[0], wide, x).0,
        g: row_out(rows[1], wide, x).0,
        b: row_out(rows[2], wide, x).0,
    }
}

fn from_zero(x: f64) -> f64
    ensures { result ≡ UnitHold.from_zero x }
{
    if x > 0.0 {
        return x;
    }
    0.0
}

// Hold between 0 and 1: a maximum and a minimum, since 0 is below 1.
pub fn hold_unit(x: f64) -> f64
    ensures { result ≡ Hold.hold x F64.zero F64.one }
{
    let y = from_zero(x);
    if y > 1.0 {
        return 1.0;
    }
    y
}

// Held in 0..1 for style Fwd, where clamp is true.
pub fn held_for_fwd(clamp: bool, x: f64) -> Fraction
    ensures { result ≡ Cdl.held_for_fwd clamp x }
{
    if clamp {
        return Fraction(hold_unit(x));
    }
    Fraction(x)
}

pub fn sop(slope: f64, offset: f64, clamp: bool, x: Fraction) -> Fraction
    ensures { result ≡ Cdl.sop slope offset clamp x }
{
    held_for_fwd(clamp, x.0 * slope + offset)
}

pub fn sop_pixel(numbers: CdlNumbers, clamp: bool, x: Fractions) -> Fractions
    ensures { result ≡ Cdl.sop_pixel numbers.slope_r numbers.slope_g numbers.slope_b numbers.offset_r numbers.offset_g numbers.offset_b clamp x }
{
    Fractions {
        r: sop(numbers.slope_r, numbers.offset_r, clamp, x.r),
        g: sop(numbers.slope_g, numbers.offset_g, clamp, x.g),
        b: sop(numbers.slope_b, numbers.offset_b, clamp, x.b),
    }
}

pub fn luma(x: Fractions) -> Fraction
    ensures { result ≡ Cdl.luma x }
{
    Fraction(0.2126 * x.r.0 + 0.7152 * x.g.0 + 0.0722 * x.b.0)
}

pub fn saturated(sat: f64, luma: Fraction, clamp: bool, x: Fraction) -> Fraction
    ensures { result ≡ Cdl.saturated sat luma clamp x }
{
    held_for_fwd(clamp, luma.0 + sat * (x.0 - luma.0))
}

pub fn saturated_by(sat: f64, luma: Fraction, clamp: bool, x: Fractions) -> Fractions
    ensures { result ≡ Cdl.saturated_by sat luma clamp x }
{
    Fractions {
        r: saturated(sat, luma, clamp, x.r),
        g: saturated(sat, luma, clamp, x.g),
        b: saturated(sat, luma, clamp, x.b),
    }
}

pub fn sat_pixel(sat: f64, clamp: bool, x: Fractions) -> Fractions
    ensures { result ≡ Cdl.sat_pixel sat clamp x }
{
    if sat == 1.0 {
        return x;
    }
    saturated_by(sat, luma(x), clamp, x)
}

pub fn cdl_pixel(numbers: CdlNumbers, clamp: bool, in_scale: f64, out_scale: f64, x: Pixel) -> Pixel
    ensures { result ≡ Cdl.cdl_pixel numbers.slope_r numbers.slope_g numbers.slope_b numbers.offset_r numbers.offset_g numbers.offset_b numbers.saturation clamp in_scale out_scale x }
{
    let a = to_fractions(in_scale, x);
    let b = sop_pixel(numbers, clamp, a);
    to_code_values(out_scale, sat_pixel(numbers.saturation, clamp, b))
}
