#![tactic(auto)]

// What C hosts call: the file check on plain bytes, reading into lent room, and running pixels through a file's list. The crate clf_c_c exports
// these functions; see capi/clf.h.
ghost use Rattle.std.specs.Prelude.{◌≡◌, false};
ghost use Rattle.room.specs.Room.{lent};
ghost use Rattle.clf.specs.Reading as Reading;
ghost use Rattle.running.specs.Running.{fault_number, fault_place};
ghost use Rattle.clf_c.specs.Answers.{file_check_of, FileReads};
ghost use Rattle.clf_c.specs.Applying.{slice_refused, Applies};

use reading::Refused;
use running::RunFault;

// What the file check answers: the refusal number, 0 for accepted, and its place.
#[repr(C)]
#[derive(Clone, Copy)]
pub struct FileCheck {
    pub number: u64,
    pub place: u64,
}

// The answer where nothing is refused.
const ACCEPTED: FileCheck = FileCheck {
    number: 0,
    place: 0,
};

impl From<Refused> for FileCheck {
    ghost from_gives = { λ why r. r ≡ record { number = why.number; place = why.place } };

    fn from(why: Refused) -> FileCheck {
        FileCheck {
            number: why.number as u64,
            place: why.place as u64,
        }
    }
}

impl From<RunFault> for FileCheck {
    ghost from_gives = { λ why r. r ≡ record { number = fault_number why; place = fault_place why } };

    fn from(why: RunFault) -> FileCheck {
        FileCheck {
            number: why.number() as u64,
            place: why.place() as u64,
        }
    }
}

// What reading answers: the refusal number and its place, and how many nodes and numbers the list has.
#[repr(C)]
#[derive(Clone, Copy)]
pub struct FileRead {
    pub number: u64,
    pub place: u64,
    pub nodes: u64,
    pub numbers: u64,
}

// Checks a file; no room is lent, and refusal 13 means over 262,144 numbers.
pub fn clf_check_file(file: &[u8]) -> FileCheck
    ensures { result ≡ file_check_of (Reading.read_alone file.now) }
{
    match reading::check(file) {
        Ok(()) => ACCEPTED,
        Err(why) => FileCheck::from(why),
    }
}

// Reads a file into the table room.
pub fn clf_read_file(file: &[u8], coefficients: &mut [i64], powers: &mut [i8]) -> FileRead
    ensures { FileReads file.now result (lent coefficients.old powers.old) (lent coefficients.new powers.new) }
{
    match reading::read(file, coefficients, powers) {
        Ok(list) => FileRead {
            number: 0,
            place: 0,
            nodes: list.count as u64,
            numbers: process_list::used(list) as u64,
        },
        Err(why) => FileRead {
            number: why.number as u64,
            place: why.place as u64,
            nodes: 0,
            numbers: 0,
        },
    }
}

// Runs a file over the pixels, three components a pixel: the tests of the slice come first, then the file is read into the table room, and
// its list runs. Refused by the slice, nothing changes; a refused reading zeroes the room and leaves the pixels.
pub fn clf_apply(
    file: &[u8],
    coefficients: &mut [i64],
    powers: &mut [i8],
    pixels: &mut [f64],
) -> FileCheck
    ensures { Applies file.now (lent coefficients.old powers.old) pixels.old result (lent coefficients.new powers.new)
        pixels.new }
{
    if pixels.len() % 3 != 0 {
        return FileCheck::from(RunFault::NotThrees);
    }
    let first = pixel_run::first_not_finite(pixels);
    if first < pixels.len() {
        return FileCheck::from(RunFault::NotFinite(first));
    }
    read_and_run(file, coefficients, powers, pixels)
}

// Reads a file into the table room and runs its list over pixels that are not refused.
fn read_and_run(
    file: &[u8],
    coefficients: &mut [i64],
    powers: &mut [i8],
    pixels: &mut [f64],
) -> FileCheck
    requires { slice_refused pixels.old ≡ false }
    ensures { Applies file.now (lent coefficients.old powers.old) pixels.old result (lent coefficients.new powers.new)
        pixels.new }
{
    let list = match reading::read(file, coefficients, powers) {
        Ok(list) => list,
        Err(why) => return FileCheck::from(why),
    };
    match running::run(list, coefficients, powers, pixels) {
        Ok(()) => ACCEPTED,
        Err(why) => FileCheck::from(why),
    }
}
