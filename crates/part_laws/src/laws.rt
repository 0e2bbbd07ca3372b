// The laws of parts.
ghost use Rattle.part_laws.specs.Laws.{FilteringCommutes, OnePartIsWhole, MergedPartsAreWhole};
ghost use Rattle.part_laws.specs.Laws.{WorkMayBeSplit};

/// The law of keys: where an expression has partition keys, and each of its searches gives one part
/// by its own ones, the expression gives that part of its list by its keys.
pub fn filtering_commutes()
    ensures { FilteringCommutes }
{}

/// Where there is one part alone, an expression gives its whole list.
pub fn one_part_is_whole()
    ensures { OnePartIsWhole }
{}

/// The law of the merge: a list in the order of a sort that has a term of each key is the merge of
/// its parts by that sort.
pub fn merged_parts_are_whole()
    ensures { MergedPartsAreWhole }
{}

/// The law of splits: where an expression only reads and has no fault, each outermost parallel has
/// workers, its input has partition keys and holds no parallel, and its sort, in which the input
/// comes, has a term of each key.
pub fn work_may_be_split()
    ensures { WorkMayBeSplit }
{}
