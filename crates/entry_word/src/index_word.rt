// The index in a 32-bit index word: the upper 16 bits.

ghost use Rattle.std.specs.Prelude.{◌≡◌, ◌<◌};
ghost use Rattle.plain_table.specs.Index.{index_of, word_of};

/// An index takes the bits above these.
const INDEX_SHIFT: u32 = 16;

/// The index in an index word: its upper 16 bits, a number below 65,536.
pub fn index_of(word: u32) -> u32
    ensures index { result ≡ index_of word }
    ensures small { result < 65536 }
{
    word >> INDEX_SHIFT
}

/// The index word of an index below 65,536: 65,536 times the index.
pub fn word_of(index: u32) -> u32
    requires { index < 65536 }
    ensures { result ≡ word_of index }
{
    index << INDEX_SHIFT
}
