//! A letter that goes from one seat of a booth to another.

use booth_caller::{Letter, Reply, deliver};
use std::test::Fail;

#[test]
fn a_letter_is_delivered(rt: HostRuntime) -> Result<(), Fail> {
    let text = String::from_str(rt.alloc(), "who reads this?")?;
    let letter = Box::new(rt.alloc(), Letter { text })?;
    let Ok(Reply::Given(given)) = deliver(&rt, rt.alloc(), letter) else {
        panic!(rt; "not delivered")
    };
    assert_eq!(rt; given.text.as_str(), "who reads this?");
    Ok(())
}
