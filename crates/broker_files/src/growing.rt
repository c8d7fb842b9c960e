use nsq_base::Memory;

/// Adds one behind a list. It goes with the refusal where memory is wanting.
pub fn put_last<T: Drop>(list: &mut Vec<T>, one: T) -> Result<(), Memory> {
    list.push(one)?;
    Ok(())
}

/// The same of one that was made, if memory didn't want.
pub fn put_made<T: Drop>(list: &mut Vec<T>, made: Result<T, Memory>) -> Result<(), Memory> {
    list.push(made?)?;
    Ok(())
}
