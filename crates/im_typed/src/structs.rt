ghost use Rattle.im_typed.specs.StructsLaws.{StatementsLaw, ObjectsLaw};

/// Types, objects and typed statements are what they were once a table has more types and more
/// structs: so what is typed before a member list ends stays as it is.
pub fn more_structs_law()
    ensures statements { StatementsLaw }
    ensures objects { ObjectsLaw }
{}
