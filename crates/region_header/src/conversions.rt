//! The words of an image as the bytes of a file, and back.
ghost use Rattle.std.specs.Prelude.{◌≡◌, ◌%◌, length, IfOk};
ghost use Rattle.heap_model.specs.Image.{bytes_of_words};
ghost use Rattle.region_header.specs.Words.{AreWordsOf};

use crate::byte_list::Bytes;
use byteorder::{ByteOrder, LittleEndian};
use std::alloc::{AllocError, Global};
use super_block::WORD_BYTES;

/// The bytes of the words, the lowest byte of each first: they stand for these words.
pub fn words_to_bytes(alloc: Global, words: &[u64]) -> Result<Bytes, AllocError>
    ensures ok { IfOk result (λ bytes. bytes ≡ bytes_of_words words.now) }
    ensures words { IfOk result (AreWordsOf words.now) }
{
    let mut bytes = vec![in alloc; 0; WORD_BYTES as usize * words.len()]?;
    LittleEndian::write_u64_into(words, &mut bytes);
    Ok(Bytes::from_vec(bytes))
}

/// The words in the bytes, eight for each.
pub fn bytes_to_words(alloc: Global, bytes: &[u8]) -> Result<Vec<u64>, AllocError>
    requires { length bytes.now % 8 ≡ 0 }
    ensures ok { IfOk result (λ words. AreWordsOf words.items bytes.now) }
{
    let count = bytes.len() / WORD_BYTES as usize;
    let mut words = Vec::with_capacity(alloc, count)?;
    for i in 0..count {
        words.push_reserved(LittleEndian::read_u64(&bytes[WORD_BYTES as usize * i..]));
    }
    Ok(words)
}
