//! The values of an array: a vector that goes in comes out again, and isn't copied.
use job_meaning::Values;
use std::alloc::Global;
use std::test::Fail;
use trace::NoMemory;

/// Whether values that are made from a vector are these numbers, as a slice, and give the vector back.
fn goes_round(alloc: Global, numbers: &[i64]) -> Result<bool, NoMemory> {
    let mut vector = Vec::with_capacity(alloc, 100)?;
    vector.extend_from_slice(numbers)?;
    let capacity = vector.capacity();
    let values = Values::from_vec(vector)?.in_one_piece(alloc)?;
    let is_slice = values.as_slice() == Some(numbers);
    let vector = values.into_vec(alloc)?;
    // No clause says that nothing is copied; a copy would have no room to spare.
    Ok(is_slice && vector.as_slice() == numbers && vector.capacity() == capacity)
}

#[test]
fn values_give_back_the_vector_that_they_were_made_from(rt: HostRuntime) -> Result<(), Fail> {
    assert!(rt; goes_round(rt.alloc(), &[i64::MIN, 0, -1, i64::MAX])?);
    assert!(rt; goes_round(rt.alloc(), &[])?);
    Ok(())
}
