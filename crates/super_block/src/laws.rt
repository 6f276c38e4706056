//! What ties the numbers of `layout` to the definitions, as a function with nothing to run.
ghost use Rattle.std.specs.Prelude.{◌≡◌, ◌↔◌, ℕ, ◌+◌, ◌*◌, ◌≤◌, cond, nat_lt, slice_index};
ghost use Rattle.heap_model.specs.Header.{first_kinds};
ghost use Rattle.heap_model.specs.Sizes.{IsClass};
ghost use Rattle.heap_model.specs.Words.{large_info};
ghost use Rattle.heap_model.specs.Geometry.{magic, version, old_version, largest_capacity, largest_old_capacity, clean, dirty, magic_word, version_word, capacity_word, state_word, used_word, head_word, roots, root_word, lists, line_words, fixed_words, info_word, anchor_word, link_word, superblock_words, start_word, image_words};

use crate::layout::*;

/// The constants of this crate are the numbers that the definitions of the image speak of.
pub fn constants_agree()
    // values
    ensures magic { MAGIC ≡ magic }
    ensures version { VERSION ≡ version }
    ensures old_version { OLD_VERSION ≡ old_version }
    ensures largest_old_capacity { LARGEST_OLD_CAPACITY ≡ largest_old_capacity }
    ensures largest_capacity { LARGEST_CAPACITY ≡ largest_capacity }
    ensures longest_image { LONGEST_IMAGE ≡ 8 * image_words largest_capacity }
    ensures clean { CLEAN ≡ clean }
    ensures dirty { DIRTY ≡ dirty }
    ensures roots { ROOTS ≡ roots }
    ensures lists { LISTS ≡ lists }
    ensures line_words { LINE_WORDS ≡ line_words }

    // word indices
    ensures magic_word { MAGIC_WORD ≡ magic_word }
    ensures version_word { VERSION_WORD ≡ version_word }
    ensures capacity_word { CAPACITY_WORD ≡ capacity_word }
    ensures state_word { STATE_WORD ≡ state_word }
    ensures used_word { USED_WORD ≡ used_word }
    ensures head_word { (list : ℕ) → HEAD_WORD + list ≡ head_word list }
    ensures free_list { HEAD_WORD + FREE_LIST ≡ head_word 0 }
    ensures root_word { (i : ℕ) → ROOT_WORD + i ≡ root_word i }

    // descriptors and superblocks
    ensures fixed_words { FIXED_WORDS ≡ fixed_words }
    ensures info { (d : ℕ) → FIXED_WORDS + DESCRIPTOR_WORDS * d ≡ info_word d }
    ensures anchor { (d : ℕ) → info_word d + ANCHOR_OFFSET ≡ anchor_word d }
    ensures link { (d : ℕ) → info_word d + LINK_OFFSET ≡ link_word d }
    ensures superblock { SUPERBLOCK_WORDS ≡ superblock_words }
    ensures large_info { (count : ℕ) → LARGE_INFO + LARGE_STEP * count ≡ large_info count }
    ensures last_class { (class : ℕ) → IsClass class ↔ ((1 ≤ class) × (class ≤ LAST_CLASS)) }
    ensures start { (capacity d : ℕ) → info_word capacity + SUPERBLOCK_WORDS * d
        ≡ start_word capacity d }

    // what an empty image has for kinds
    ensures first_kinds { (i : ℕ) → slice_index first_kinds i
        ≡ cond (nat_lt i ROOTS_OF_KIND_ONE) 1 0 }
{}
