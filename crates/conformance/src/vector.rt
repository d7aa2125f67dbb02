// A test vector, read from its line.
use anyhow::{Context, anyhow, bail, ensure};
use engine::engine::WIDTH;
use hex_text::reading::read_string;
use std::alloc::{AllocError, Global};

#[derive(Clone, Copy)]
pub struct PermutationVector {
    pub before: [u8; WIDTH],
    pub after: [u8; WIDTH],
}

#[derive(Drop)]
pub struct HashVector {
    pub string: Vec<u8>,
    pub digest: Vec<u8>,
}

#[derive(Drop)]
pub struct AeadVector {
    pub count: usize,
    pub message: Vec<u8>,
    pub ad: Vec<u8>,
    pub sealed: Vec<u8>,
}

#[derive(Drop)]
pub enum Vector {
    Permutation(PermutationVector),
    Hash(HashVector),
    Aead(AeadVector),
}

// The string of a field: pairs of hex digits, or '-' for the empty string.
fn string_of(heap: Global, field: &str) -> anyhow::Result<Vec<u8>> {
    if field == "-" {
        return Ok(Vec::new(heap));
    }
    ensure!(field.len() % 2 == 0, "a field ends in half a byte");
    read_string(heap, field.as_bytes())?.context("a digit is not a hex digit")
}

// The string 00 01 02 .. of n bytes.
fn counting(heap: Global, n: usize) -> Result<Vec<u8>, AllocError> {
    (0..n).map(|i| (i % 256) as u8).collect(heap)
}

fn aead_vector(
    heap: Global,
    count: &str,
    message: &str,
    ad: &str,
    sealed: &str,
) -> anyhow::Result<Vector> {
    Ok(Vector::Aead(AeadVector {
        count: count.parse::<usize>()?,
        message: string_of(heap, message)?,
        ad: string_of(heap, ad)?,
        sealed: string_of(heap, sealed)?,
    }))
}

fn hash_vector(heap: Global, length: &str, digest: &str) -> anyhow::Result<Vector> {
    Ok(Vector::Hash(HashVector {
        string: counting(heap, length.parse::<usize>()?)?,
        digest: string_of(heap, digest)?,
    }))
}

// A state that is not 48 bytes is no vector: comparing it would leave bytes out.
fn state_of(string: &[u8]) -> anyhow::Result<[u8; WIDTH]> {
    <[u8; WIDTH]>::try_from(string).map_err(|_| anyhow!("a state is not 48 bytes"))
}

fn permutation_vector(heap: Global, before: &str, after: &str) -> anyhow::Result<Vector> {
    let before = string_of(heap, before)?;
    let after = string_of(heap, after)?;
    Ok(Vector::Permutation(PermutationVector {
        before: state_of(before.as_slice())?,
        after: state_of(after.as_slice())?,
    }))
}

// The vector of a line. A line that is no vector stops the run: left out, it would pass unseen.
pub fn parse(heap: Global, line: &str) -> anyhow::Result<Vector> {
    let fields: Vec<&str> = line.split(' ').collect(heap)?;
    match fields.as_slice() {
        ["permutation", before, after] => permutation_vector(heap, before, after),
        ["hash", length, digest] => hash_vector(heap, length, digest),
        ["aead", count, message, ad, sealed] => aead_vector(heap, count, message, ad, sealed),
        _ => bail!("a line is no vector"),
    }
}
