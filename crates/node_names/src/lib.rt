#![tactic(auto)]

// The names of nodes and of bit depths, as the written form and the console's answers have them.
ghost use Rattle.std.specs.Prelude.{◌++◌};
ghost use Rattle.text_out.specs.Output.{Puts};
ghost use Rattle.written_form.specs.Written.{depth_text, name_text};

use process_list::{Depth, Kind};
use text_out::put;

pub fn put_depth(out: &mut [u8], at: usize, depth: Depth) -> usize
    ensures { Puts (λ t. depth_text depth ++ t) at out.old out.new result }
{
    match depth {
        Depth::I8 => put(out, at, b"8i"),
        Depth::I10 => put(out, at, b"10i"),
        Depth::I12 => put(out, at, b"12i"),
        Depth::I16 => put(out, at, b"16i"),
        Depth::F16 => put(out, at, b"16f"),
        Depth::F32 => put(out, at, b"32f"),
    }
}

pub fn put_name(out: &mut [u8], at: usize, kind: Kind) -> usize
    ensures { Puts (λ t. name_text kind ++ t) at out.old out.new result }
{
    match kind {
        Kind::Matrix { .. } => put(out, at, b"Matrix"),
        Kind::Lut1d { .. } => put(out, at, b"LUT1D"),
        Kind::Range { .. } | Kind::OneEnd { .. } => put(out, at, b"Range"),
        Kind::Cdl { .. } => put(out, at, b"ASC_CDL"),
        Kind::Lut3d { .. } => put(out, at, b"LUT3D"),
    }
}
