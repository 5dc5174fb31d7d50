//! Words for words: where a list of machine words shows a plain table, which changed words show the table after an event.
//!
//! Each law is a function that does nothing and whose contract is the law: a caller may cite it. There is a law for each
//! kind of word (`specs/WordLaws.antt`: of fields, entries, references and globals, the count, the area, headers and
//! freelists); for a segment that is being committed (`SegmentLaws.antt`); for the marking invariant after a step
//! (`CoverLaws.antt`); and for what is read in words (`ReadLaws.antt`, `Kinds.antt`). `Runs.antt` defines what a run of
//! events by the meeting leaves; the crates above cite lemmas about such runs.
#![tactic(auto)]

ghost use Rattle.word_laws.specs.CoverLaws.{CoveredWordsStay, ScannedWordsStayCovered, ShadedWordsStayCovered};
ghost use Rattle.word_laws.specs.Kinds.{EntryKindsTell};
ghost use Rattle.word_laws.specs.ReadLaws.{AreaWordsTell, EntryWordsTell, FreeBelowRead, LooksRead};
ghost use Rattle.word_laws.specs.SegmentLaws.{ChangedWordsStayNear, CommittedWordsFollow, CommittedWordsStayNear, LinkedEntriesStayNear, SegmentsCanBeCommitted};
ghost use Rattle.word_laws.specs.WordLaws.{AreaWordsFollow, CellWordsFollow, CountWordsFollow, EvacuationWordsFollow, FieldWordsFollow, FreelistWordsFollow, FreelistsTell, LinkWordsFollow, ScanWordsFollow, ShadedWordsStay, WordsStay};

/// After a bind that says ok, and after a forge, the list with the word at the field's place shows the table.
pub fn field_words_follow()
    ensures { FieldWordsFollow }
{}

/// After a put, a store, an exchange, a publish and a mark, the list with the marked word of the cell at its index shows
/// the table.
pub fn cell_words_follow()
    ensures { CellWordsFollow }
{}

/// After an evacuation entry, the list with the word of its field at its index shows the table.
pub fn evacuation_words_follow()
    ensures { EvacuationWordsFollow }
{}

/// After an event that writes no word, the same words show the table.
pub fn words_stay()
    ensures { WordsStay }
{}

/// After a link, the list with the object's word in the global or the reference shows the table.
pub fn link_words_follow()
    ensures { LinkWordsFollow }
{}

/// After a new object, the list with the raised count shows the table.
pub fn count_words_follow()
    ensures { CountWordsFollow }
{}

/// After an abort, the list with the area word of the aborted cycle shows the table.
pub fn area_words_follow()
    ensures { AreaWordsFollow }
{}

/// After a scan, the list with the black header of the object shows the table.
pub fn scan_words_follow()
    ensures { ScanWordsFollow }
{}

/// The list with the shaded bit set in an object's header shows the table that it showed.
pub fn shaded_words_stay()
    ensures { ShadedWordsStay }
{}

/// After a take of the head of a freelist, the list with the word of the shorter freelist shows the table.
pub fn freelist_words_follow()
    ensures { FreelistWordsFollow }
{}

/// The freelist word of a space has the least free index as its head, or its length is 0, each committed index is used, and
/// its head is the end of the committed segments.
pub fn freelists_tell()
    ensures { FreelistsTell }
{}

/// Words that are near those that show a table stay near them where one word of both is changed alike.
pub fn changed_words_stay_near()
    ensures { ChangedWordsStayNear }
{}

/// They stay near where an entry that has no access is linked in the present words: it becomes the free word of the
/// next index.
pub fn linked_entries_stay_near()
    ensures { LinkedEntriesStayNear }
{}

/// Where the segment from an index on fits in its space, there are words in which it is committed.
pub fn segments_can_be_committed()
    ensures { SegmentsCanBeCommitted }
{}

/// After a commit of the segment at the head of an empty freelist, the words show the same table.
pub fn committed_words_follow()
    ensures { CommittedWordsFollow }
{}

/// The present words, in which all entries of the segment are linked, are near the committed ones once they have
/// the freelist word of the segment.
pub fn committed_words_stay_near()
    ensures { CommittedWordsStayNear }
{}

/// The marking invariant stays where no header changes, and each reference keeps what it holds or comes to hold
/// nothing or a shaded object.
pub fn covered_words_stay()
    ensures { CoveredWordsStay }
{}

/// It stays where an old object is shaded.
pub fn shaded_words_stay_covered()
    ensures { ShadedWordsStayCovered }
{}

/// It stays where an object is scanned whose references hold nothing or shaded objects.
pub fn scanned_words_stay_covered()
    ensures { ScannedWordsStayCovered }
{}

/// A cell stands at an index just where the tag bits of its entry word are not 0, and the bits are its tag, its
/// value, whether it is shown, and whether it is marked.
pub fn entry_words_tell()
    ensures { EntryWordsTell }
{}

/// A look answers what the bits of the entry word say: null for index 0, and a fault past the limit.
pub fn looks_read()
    ensures { LooksRead }
{}

/// The area word has the start of the evacuation area in its lower 32 bits, and 1 above them just where the
/// compaction is aborted.
pub fn area_words_tell()
    ensures { AreaWordsTell }
{}

/// The least free index below the evacuation area is the head of the external freelist, where the list is not empty and its
/// head is below the area, and else there is none.
pub fn free_below_read()
    ensures { FreeBelowRead }
{}

/// In a cycle the range of an entry word tells whether a cell or an evacuation entry stands at the index, and whether the
/// cell is marked.
pub fn entry_kinds_tell()
    ensures { EntryKindsTell }
{}
