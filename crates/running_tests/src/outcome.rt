// How a test ends.
use std::alloc::AllocError;
use std::test::Fail;

/// The end of a test that asks whether something is so: it fails where that is not, and where memory is out.
pub fn passes(is_so: Result<bool, AllocError>) -> Result<(), Fail> {
    if is_so? {
        Ok(())
    } else {
        Err(Fail::from("it is not so"))
    }
}
