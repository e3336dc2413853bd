// Styles, a LUT3D's method, and the start and end tags of nodes.
ghost use Rattle.std.specs.Prelude.{◌++◌};
ghost use Rattle.text_out.specs.Output.{Puts};
ghost use Rattle.written_form.specs.Written as Text;
ghost use Rattle.written_form.proofs.Tail as Tail;
ghost use Rattle.ids.specs.Ids.{id_text};

use node_names::{put_depth, put_name};
use process_list::{CdlStyle, Depth, Interpolation, Kind, RangeStyle};
use text_out::put;

fn put_range_style(out: &mut [u8], at: usize, style: RangeStyle) -> usize
    ensures { Puts (λ t. Text.range_style_text style ++ t) at out.old out.new result }
{
    match style {
        RangeStyle::Clamp => put(out, at, b" style=\"Clamp\""),
        RangeStyle::NoClamp => put(out, at, b" style=\"noClamp\""),
    }
}

fn put_cdl_style(out: &mut [u8], at: usize, style: CdlStyle) -> usize
    ensures { Puts (λ t. Text.cdl_style_text style ++ t) at out.old out.new result }
{
    match style {
        CdlStyle::Fwd => put(out, at, b" style=\"Fwd\""),
        CdlStyle::FwdNoClamp => put(out, at, b" style=\"FwdNoClamp\""),
    }
}

fn put_interpolation(out: &mut [u8], at: usize, interpolation: Interpolation) -> usize
    ensures { Puts (λ t. Text.interpolation_text interpolation ++ t) at out.old out.new result }
{
    match interpolation {
        Interpolation::Trilinear => put(out, at, b" interpolation=\"trilinear\""),
        Interpolation::Tetrahedral => put(out, at, b" interpolation=\"tetrahedral\""),
    }
}

// What stands in a node's tag behind the depths and its id: its style, or the method of a LUT3D. A Range with one end has style Clamp.
fn put_style(out: &mut [u8], at: usize, kind: Kind) -> usize
    ensures { Puts (λ t. Text.style_text kind ++ t) at out.old out.new result }
{
    match kind {
        Kind::Matrix { .. } | Kind::Lut1d { .. } => at,
        Kind::Range { style } => put_range_style(out, at, style),
        Kind::Cdl { style } => put_cdl_style(out, at, style),
        Kind::Lut3d { interpolation, .. } => put_interpolation(out, at, interpolation),
        Kind::OneEnd { .. } => put_range_style(out, at, RangeStyle::Clamp),
    }
}

fn put_depths(out: &mut [u8], at: usize, input: Depth, output: Depth) -> usize
    ensures { Puts (Tail.depths_text input output) at out.old out.new result }
{
    let a = put(out, at, b" inBitDepth=\"");
    let b = put_depth(out, a, input);
    let c = put(out, b, b"\" outBitDepth=\"");
    let d = put_depth(out, c, output);
    put(out, d, b"\"")
}

// The id that stands in these places, as an attribute; nothing where there is none.
fn put_id(out: &mut [u8], at: usize, places: &[u8]) -> usize
    ensures { Puts (Tail.node_id_text (id_text places.now)) at out.old out.new result }
{
    let n = ids::length_of(places);
    if n == 0 {
        return at;
    }
    let a = put(out, at, b" id=\"");
    let b = put(out, a, &places[0..n]);
    put(out, b, b"\"")
}

pub fn put_start(
    out: &mut [u8],
    at: usize,
    kind: Kind,
    input: Depth,
    output: Depth,
    places: &[u8],
) -> usize
    ensures { Puts (Tail.start_text kind input output (id_text places.now)) at out.old out.new result }
{
    let a = put(out, at, b"<");
    let b = put_name(out, a, kind);
    let c = put_depths(out, b, input, output);
    let d = put_id(out, c, places);
    let e = put_style(out, d, kind);
    put(out, e, b">\n")
}

pub fn put_end(out: &mut [u8], at: usize, kind: Kind) -> usize
    ensures { Puts (Tail.end_text kind) at out.old out.new result }
{
    let a = put(out, at, b"</");
    let b = put_name(out, a, kind);
    put(out, b, b">\n")
}
