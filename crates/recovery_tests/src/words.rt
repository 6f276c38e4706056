//! Words of an image, written and looked at.
use heap_recover::Recovered;

/// Writes words into an image.
pub fn write(image: &mut [u64], words: &[(usize, u64)]) {
    for (at, value) in words {
        if *at < image.len() {
            image[*at] = *value;
        }
    }
}

/// Whether the heap has these words.
pub fn has_words(heap: &Recovered, words: &[(usize, u64)]) -> bool {
    for (at, value) in words {
        if heap.heap.words().get(*at) != Some(value) {
            return false;
        }
    }
    true
}
