#![tactic(auto)]

// The numbers of the table room as f64: one of them, and the three rows of a Matrix.
ghost use Rattle.std.specs.Prelude.{◌≡◌, ◌+◌, ◌<◌};
ghost use Rattle.room.specs.Room.{lent, room_length};
ghost use Rattle.pixel_room.specs.Room as Room;

use decimal::Decimal;

fn number_inside(coefficients: &[i64], powers: &[i8], k: usize) -> f64
    requires { k < room_length (lent coefficients.now powers.now) }
    ensures { result ≡ Room.number_at (lent coefficients.now powers.now) k }
{
    decimal_value::value(Decimal {
        coefficient: coefficients[k],
        power: powers[k],
    })
}

// Number k of those that stand from at on. A call of its own: so the two methods of a LUT3D take in what finds an entry's place, and share it.
#[inline(never)]
pub fn number_from(coefficients: &[i64], powers: &[i8], at: usize, k: usize) -> f64
    ensures { result ≡ Room.number_at (lent coefficients.now powers.now) (at + k) }
{
    let count = room::length(coefficients, powers);
    if at >= count || k >= count - at {
        return 0.0;
    }
    number_inside(coefficients, powers, at + k)
}

fn row_from(coefficients: &[i64], powers: &[i8], at: usize, k: usize, wide: bool) -> [f64; 4]
    requires { k < 9 }
    ensures { result ≡ Room.row_at (lent coefficients.now powers.now) (at + k) wide }
{
    [
        number_from(coefficients, powers, at, k),
        number_from(coefficients, powers, at, k + 1),
        number_from(coefficients, powers, at, k + 2),
        if wide {
            number_from(coefficients, powers, at, k + 3)
        } else {
            0.0
        },
    ]
}

// The three rows of a Matrix whose numbers stand from at on.
pub fn rows_from(coefficients: &[i64], powers: &[i8], at: usize, wide: bool) -> [[f64; 4]; 3]
    ensures { result ≡ Room.rows_at (lent coefficients.now powers.now) at wide }
{
    let step = if wide { 4 } else { 3 };
    [
        row_from(coefficients, powers, at, 0, wide),
        row_from(coefficients, powers, at, step, wide),
        row_from(coefficients, powers, at, 2 * step, wide),
    ]
}
