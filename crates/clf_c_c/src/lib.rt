#![tactic(auto)]

// The static library for C: the functions of clf_c under the names of capi/clf.h, each with the same clauses.
ghost use Rattle.std.specs.Prelude.{◌≡◌};
ghost use Rattle.room.specs.Room.{lent};
ghost use Rattle.clf.specs.Reading as Reading;
ghost use Rattle.clf_c.specs.Answers.{file_check_of, FileReads};
ghost use Rattle.clf_c.specs.Applying.{Applies};

use clf_c::{FileCheck, FileRead};

// Checks a file; no room is lent, and refusal 13 means over 262,144 numbers.
#[unsafe(no_mangle)]
pub extern "C" fn clf_check_file(file: &[u8]) -> FileCheck
    ensures { result ≡ file_check_of (Reading.read_alone file.now) }
{
    clf_c::clf_check_file(file)
}

// Reads a file into the table room.
#[unsafe(no_mangle)]
pub extern "C" fn clf_read_file(
    file: &[u8],
    coefficients: &mut [i64],
    powers: &mut [i8],
) -> FileRead
    ensures { FileReads file.now result (lent coefficients.old powers.old) (lent coefficients.new powers.new) }
{
    clf_c::clf_read_file(file, coefficients, powers)
}

// Runs a file over the pixels, three components a pixel.
#[unsafe(no_mangle)]
pub extern "C" fn clf_apply(
    file: &[u8],
    coefficients: &mut [i64],
    powers: &mut [i8],
    pixels: &mut [f64],
) -> FileCheck
    ensures { Applies file.now (lent coefficients.old powers.old) pixels.old result (lent coefficients.new powers.new)
        pixels.new }
{
    clf_c::clf_apply(file, coefficients, powers, pixels)
}
