// Numbers of the table room, as rows of text.
ghost use Rattle.std.specs.Prelude.{◌+◌, ◌*◌, ◌≤◌, ◌<◌, [], ◌∷◌, ◌++◌};
ghost use Rattle.decimal_write.specs.Written.{written_of};
ghost use Rattle.process_list.specs.List.{cube_numbers};
ghost use Rattle.room.specs.Room.{lent, room_length};
ghost use Rattle.valid.specs.Valid.{decimal_at, numbers_at};
ghost use Rattle.text_out.specs.Output.{Puts};
ghost use Rattle.written_form.proofs.Tail as Tail;

use decimal::Decimal;

// The number of index k.
fn put_number(out: &mut [u8], at: usize, coefficients: &[i64], powers: &[i8], k: usize) -> usize
    requires { k < room_length (lent coefficients.now powers.now) }
    ensures { Puts (λ t. written_of (decimal_at (lent coefficients.now powers.now) k) ++ t) at out.old out.new result }
{
    let coefficient = coefficients[k];
    let power = powers[k];
    text_out::put_number(out, at, Decimal { coefficient, power })
}

// `count` numbers from index `from` on, a space before each.
fn put_spaced(
    out: &mut [u8],
    at: usize,
    coefficients: &[i64],
    powers: &[i8],
    from: usize,
    count: usize,
) -> usize
    requires { from + count ≤ room_length (lent coefficients.now powers.now) }
    ensures { Puts (Tail.spaced_text (numbers_at (lent coefficients.now powers.now) from count)) at out.old out.new result }
{
    let mut held = at;
    for i in 0..count {
        held = text_out::put(out, held, b" ");
        held = put_number(out, held, coefficients, powers, from + i);
    }
    held
}

// The numbers of one line.
pub fn put_row(
    out: &mut [u8],
    at: usize,
    coefficients: &[i64],
    powers: &[i8],
    from: usize,
    count: usize,
) -> usize
    requires { from + count ≤ room_length (lent coefficients.now powers.now) }
    ensures { Puts (Tail.row_text (numbers_at (lent coefficients.now powers.now) from count)) at out.old out.new result }
{
    if count == 0 {
        return at;
    }
    let held = put_number(out, at, coefficients, powers, from);
    put_spaced(out, held, coefficients, powers, from + 1, count - 1)
}

// One row a line.
fn put_rows(
    out: &mut [u8],
    at: usize,
    coefficients: &[i64],
    powers: &[i8],
    from: usize,
    rows: usize,
    columns: usize,
) -> usize
    requires { from + rows * columns ≤ room_length (lent coefficients.now powers.now) }
    ensures { Puts (Tail.rows_text rows columns (numbers_at (lent coefficients.now powers.now) from (rows * columns))) at out.old out.new result }
{
    let mut held = at;
    let mut k = from;
    for i in 0..rows {
        held = put_row(out, held, coefficients, powers, k, columns);
        held = text_out::put(out, held, b"\n");
        k += columns;
    }
    held
}

// `dim` of a table.
fn put_table_dims(out: &mut [u8], at: usize, rows: usize, columns: usize) -> usize
    ensures { Puts (Tail.dims_text (rows ∷ columns ∷ [])) at out.old out.new result }
{
    let a = text_out::put_digits(out, at, rows);
    let b = text_out::put(out, a, b" ");
    text_out::put_digits(out, b, columns)
}

// `dim` of a cube.
fn put_cube_dims(out: &mut [u8], at: usize, points: usize) -> usize
    ensures { Puts (Tail.dims_text (points ∷ points ∷ points ∷ 3 ∷ [])) at out.old out.new result }
{
    let a = text_out::put_digits(out, at, points);
    let b = text_out::put(out, a, b" ");
    let c = text_out::put_digits(out, b, points);
    let d = text_out::put(out, c, b" ");
    put_table_dims(out, d, points, 3)
}

// An Array behind the text of its `dim`: the end of the tag, the rows, the end tag.
fn put_lines(
    out: &mut [u8],
    at: usize,
    coefficients: &[i64],
    powers: &[i8],
    from: usize,
    rows: usize,
    columns: usize,
) -> usize
    requires { from + rows * columns ≤ room_length (lent coefficients.now powers.now) }
    ensures { Puts (Tail.lines_text rows columns (numbers_at (lent coefficients.now powers.now) from (rows * columns))) at out.old out.new result }
{
    let a = text_out::put(out, at, b"\">\n");
    let b = put_rows(out, a, coefficients, powers, from, rows, columns);
    text_out::put(out, b, b"</Array>\n")
}

// The Array of a Matrix or a LUT1D, of so many rows and columns.
pub fn put_table(
    out: &mut [u8],
    at: usize,
    coefficients: &[i64],
    powers: &[i8],
    from: usize,
    rows: usize,
    columns: usize,
) -> usize
    requires { from + rows * columns ≤ room_length (lent coefficients.now powers.now) }
    ensures { Puts (Tail.table_text rows columns (numbers_at (lent coefficients.now powers.now) from (rows * columns))) at out.old out.new result }
{
    let a = text_out::put(out, at, b"<Array dim=\"");
    let b = put_table_dims(out, a, rows, columns);
    put_lines(out, b, coefficients, powers, from, rows, columns)
}

// The Array of a LUT3D, of so many entries on each axis.
pub fn put_cube(
    out: &mut [u8],
    at: usize,
    coefficients: &[i64],
    powers: &[i8],
    from: usize,
    points: usize,
) -> usize
    requires { from + cube_numbers points ≤ room_length (lent coefficients.now powers.now) }
    ensures { Puts (Tail.cube_text points (numbers_at (lent coefficients.now powers.now) from (cube_numbers points))) at out.old out.new result }
{
    let a = text_out::put(out, at, b"<Array dim=\"");
    let b = put_cube_dims(out, a, points);
    let entries = points * points * points;
    put_lines(out, b, coefficients, powers, from, entries, 3)
}

// A value element of this name.
pub fn put_value(
    out: &mut [u8],
    at: usize,
    name: &[u8],
    coefficients: &[i64],
    powers: &[i8],
    from: usize,
    count: usize,
) -> usize
    requires { from + count ≤ room_length (lent coefficients.now powers.now) }
    ensures { Puts (Tail.value_text name.now (numbers_at (lent coefficients.now powers.now) from count)) at out.old out.new result }
{
    let a = text_out::put(out, at, b"<");
    let b = text_out::put(out, a, name);
    let c = text_out::put(out, b, b">");
    let d = put_row(out, c, coefficients, powers, from, count);
    let e = text_out::put(out, d, b"</");
    let f = text_out::put(out, e, name);
    text_out::put(out, f, b">\n")
}
