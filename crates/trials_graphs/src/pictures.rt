//! A picture on four threads.

use abt_kernels::{mandelbrot_rows, picture};
use std::test::Fail;

// The escape times of 7 by 5 points, by a second computation in Python.
static PICTURE: &[u8] =
    b"P5\n7 5\n255\n\x01\x01\x02\x02\x03\x02\x02\x01\x01\x03\x03\x06\x22\x03\x01\x01\x05\xff\xff\xff\x05\x01\x01\x05\xff\xff\xff\x05\x01\x01\x03\x03\x06\x22\x03";

#[test]
fn a_small_picture_is_drawn(rt: HostRuntime) -> Result<(), Fail> {
    let rows = mandelbrot_rows(&rt, rt.alloc(), 7, 5, 4)?;
    let text = picture(rt.alloc(), 7, 5, &rows)?;
    assert!(rt; text.as_slice() == PICTURE);
    Ok(())
}
