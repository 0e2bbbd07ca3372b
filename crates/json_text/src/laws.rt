// What holds of every body.
ghost use Rattle.json_text.specs.Laws.{PutsAscend, DocumentsHaveMembers, FirstFaultIsTold};
ghost use Rattle.json_text.specs.Laws.{PiecesAreTheBody};

/// Members that are put one after another, as those of a text are, stand in the order of their
/// names' bytes, each name once; a document has under each name what the member of the name
/// becomes; and in a list the fault of the first item that has one is told, by its place.
pub fn bodies_are_read_in_order()
    ensures order { PutsAscend }
    ensures members { DocumentsHaveMembers }
    ensures first { FirstFaultIsTold }
{}

/// The pieces of a result set, one behind another, are the bytes of the whole.
pub fn pieces_are_the_body()
    ensures { PiecesAreTheBody }
{}
