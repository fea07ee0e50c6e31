//! What a part of a program is worth to a query that reaches no more.

ghost use Rattle.ap_reach.specs.Laws.{SameSearchLaw, RestrictionLaw, AnswersLaw, BlockLaw};

/// Two programs with the same ways on from each goal that comes up have the same search.
pub fn same_search_law()
    ensures { SameSearchLaw }
{}

/// A query's search beside the part that it reaches is its search beside the whole program.
pub fn restriction_law()
    ensures { RestrictionLaw }
{}

/// It has the same answers to each depth.
pub fn answers_law()
    ensures { AnswersLaw }
{}

/// It has the same block.
pub fn block_law()
    ensures { BlockLaw }
{}
