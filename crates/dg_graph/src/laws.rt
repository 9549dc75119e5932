// What holds of graphs and changes.
ghost use Rattle.dg_values.specs.Order.{IsOrder};
ghost use Rattle.dg_graph.specs.Graphs.{triple_cmp};
ghost use Rattle.dg_graph.specs.Laws.{ChangesByTriple, KnownByTriples, StaysLawful, ObjectsAre, ObjectsAscend, ObjectsAfter, SubjectsAre, SubjectsAscend, ListedByTests, RangesByTokens, HoldersByNumbers, PointedByNumbers, ListedByObjects, ListedBySubjects, FoundByNumbers, FoundAscend};

/// Triples are in order, a graph is known by its triples, changes are known triple by triple, and changes that fit
/// keep a graph lawful.
pub fn graphs()
    ensures order { IsOrder triple_cmp }
    ensures known { KnownByTriples }
    ensures by_triple { ChangesByTriple }
    ensures lawful { StaysLawful }
{}

/// The objects of a subject and the subjects of an object, in a graph and after changes.
pub fn lists_of_graphs()
    ensures objects { ObjectsAre }
    ensures objects_ascend { ObjectsAscend }
    ensures objects_after { ObjectsAfter }
    ensures subjects { SubjectsAre }
    ensures subjects_ascend { SubjectsAscend }
{}

/// Which nodes are listed by tests of their objects, by tokens between two ends, and by the number of their objects or
/// of the subjects that point to them.
pub fn look_ups()
    ensures tests { ListedByTests }
    ensures ranges { RangesByTokens }
    ensures holders { HoldersByNumbers }
    ensures pointed { PointedByNumbers }
    ensures with_objects { ListedByObjects }
    ensures with_subjects { ListedBySubjects }
    ensures found { FoundByNumbers }
    ensures found_ascend { FoundAscend }
{}
