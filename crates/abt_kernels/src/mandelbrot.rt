//! The Mandelbrot set, line by line.

ghost use Rattle.std.specs.Prelude.{◌≡◌, ◌≤◌, ◌<◌, ◌*◌, ℕ, true, IfOk, map};
ghost use Rattle.std.specs.Int.RustNames.{unsigned_abs};
ghost use Rattle.std.specs.List.{range_with_len};
ghost use Rattle.abt_machine.specs.declared.grammar.Format.TheVariants as format;
ghost use Rattle.abt_machine.specs.Limits.{stream_limit, unit_limit};
ghost use Rattle.abt_kernels.specs.Mandelbrot.{IsEscapeTime, IsNear, escape_time, is_inside, mandelbrot_row, next, one, point_at, product};
ghost use Rattle.abt_kernels.specs.declared.mandelbrot.Point.{Point};

use abt_machine::Want;
use abt_tables::{MakesRows, Rows, Table, run_map_rows};
use std::alloc::{AllocError, Global};
use std::marker::{Brand, PhantomData};
use std::sync::Wait;
use std::thread::Threads;

// What stands for 1.
const ONE: i64 = 1 << 24;

// How many steps are counted.
const STEP_LIMIT: u64 = 255;

// A point of the plane in fixed-point numbers.
#[derive(Clone, Copy)]
pub(crate) struct Point {
    x: i64,
    y: i64,
}

// The product of two coordinates.
fn product(a: i64, b: i64) -> i64
    requires near { (unsigned_abs a ≤ 16 * one) × (unsigned_abs b ≤ 16 * one) }
    ensures { result ≡ product a b }
{
    a * b / ONE
}

impl Point {
    // Whether it is within the circle of radius 2.
    fn is_inside(self) -> bool
        requires near { IsNear 16 self }
        ensures { result ≡ is_inside self }
    {
        self.x * self.x + self.y * self.y <= 4 * ONE * ONE
    }

    // The point that a step leads to.
    fn next(self, c: Point) -> Point
        requires inside { is_inside self ≡ true }
        requires near { IsNear 16 self }
        requires constant { IsNear 3 c }
        ensures next { result ≡ next c self }
        ensures near { IsNear 16 result }
    {
        Point {
            x: product(self.x, self.x) - product(self.y, self.y) + c.x,
            y: 2 * product(self.x, self.y) + c.y,
        }
    }

    // How many steps lead from 0 out of the circle, 255 if no fewer do.
    fn escape_time(self) -> u64
        requires near { IsNear 3 self }
        ensures { result ≡ escape_time self }
    {
        let mut z = Point { x: 0, y: 0 };
        for n in 0..STEP_LIMIT {
            if !z.is_inside() {
                return n;
            }
            z = z.next(self);
        }
        STEP_LIMIT
    }
}

// The point of a pixel.
fn point_at(width: u32, height: u32, line: u32, column: u32) -> Point
    requires line { line < height }
    requires column { column < width }
    ensures point { result ≡ point_at width height line column }
    ensures near { IsNear 3 result }
{
    let one = ONE as u64;
    let right = 7 * one * u64::from(column) / (2 * u64::from(width));
    let down = 5 * one * u64::from(line) / (2 * u64::from(height));
    Point {
        x: right as i64 - 5 * ONE / 2,
        y: down as i64 - 5 * ONE / 4,
    }
}

// A line of the picture.
fn row(alloc: Global, width: u32, height: u32, line: u32) -> Result<Vec<u64>, AllocError>
    requires line { line < height }
    ensures { IfOk result (λ row. row.items ≡ mandelbrot_row width height line) }
{
    let mut row = Vec::new(alloc);
    for column in 0..width {
        row.push(point_at(width, height, line, column).escape_time())?;
    }
    Ok(row)
}

// The lines of a picture of this size.
#[derive(Drop)]
struct Lines<T: Table> {
    width: u32,
    height: u32,
    of: PhantomData<T>,
    ghost lines: { (line : ℕ) → T.row_at line ≡ mandelbrot_row width height line },
}

impl<T: Table> MakesRows<T> for Lines<T> {
    fn make(&self, alloc: Global, u: u32, _rows: &Rows<'_, T>) -> Option<Vec<u64>> {
        if u < self.height {
            return row(alloc, self.width, self.height, u).ok();
        }
        None
    }
}

/// The escape times of the points of a picture, line by line, on the threads of this many streams. The columns go from -2.5 to 1, and
/// the lines from -1.25 to 1.25. Err says that no memory was found.
pub fn mandelbrot_rows<R: Threads + Wait + Sync>(
    rt: &R,
    alloc: Global,
    width: u32,
    height: u32,
    streams: u32,
) -> Result<Vec<Vec<u64>>, Want>
    requires few { height ≤ unit_limit format.Three }
    requires streams { (0 < streams) × (streams ≤ stream_limit format.Three) }
    ensures { IfOk result (λ rows. map (λ row. row.items) rows.items ≡ map (mandelbrot_row width height) (range_with_len 0 height)) }
{
    table_rows::<R, Brand>(rt, alloc, width, height, streams)
}

// As `mandelbrot_rows`, for the table of these lines.
fn table_rows<R: Threads + Wait + Sync, T: Table + Send + Sync>(
    rt: &R,
    alloc: Global,
    width: u32,
    height: u32,
    streams: u32,
) -> Result<Vec<Vec<u64>>, Want>
    requires lines { (line : ℕ) → T.row_at line ≡ mandelbrot_row width height line }
    requires few { height ≤ unit_limit format.Three }
    requires streams { (0 < streams) × (streams ≤ stream_limit format.Three) }
    ensures { IfOk result (λ rows. map (λ row. row.items) rows.items ≡ map T.row_at (range_with_len 0 height)) }
{
    let lines = Lines {
        width,
        height,
        of: PhantomData,
    };
    run_map_rows::<R, T, Lines<T>>(rt, alloc, height, streams, &lines)
}

/// An escape time is how many steps lead from 0 out of the circle, or 255 if no fewer do.
pub fn escape_times()
    ensures { (c : Point) → IsEscapeTime c (escape_time c) }
{}
