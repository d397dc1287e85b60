//! Laws of tag words, each the contract of a function that does nothing.

ghost use Rattle.tag_registers.specs.WordOperation.{OperationLeavesTheTag, TagsStayBelow};

/// The operation that a unit asks on a tag word leaves the tag word that the unit's row gives.
pub fn operation_leaves_the_tag()
    ensures { OperationLeavesTheTag }
{}

/// The tag word that a unit leaves has 4 bits under version 1 and 16 under version 2, as what it found.
pub fn tags_stay_below()
    ensures { TagsStayBelow }
{}
