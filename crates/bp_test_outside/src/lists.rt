// Lists that several tests are made of.
use bp_core::{Bytes, NumberList};
use bp_outside::BytesList;
use std::alloc::{AllocError, Global};

// So many bytes, which count up.
pub fn counted(alloc: Global, length: u64) -> Result<Vec<u8>, AllocError> {
    (0..length).map(|i| (i % 251) as u8).collect(alloc)
}

pub fn numbers(alloc: Global, of: &[u64]) -> Result<NumberList, AllocError> {
    Ok(NumberList::from_vec(Vec::from_slice(alloc, of)?))
}

pub fn inputs(alloc: Global, of: &[&[u8]]) -> Result<BytesList, AllocError> {
    let mut list = Vec::new(alloc);
    for input in of {
        list.push(Bytes::from_vec(Vec::from_slice(alloc, input)?))?;
    }
    Ok(BytesList::from_vec(list))
}
