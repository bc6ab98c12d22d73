//! States how the segments of the prefixes of an order make up its stage list.
ghost use Rattle.ln_stage.specs.FirstSight.{FirstSightByPrefixes, SegmentsAreFewer};
ghost use Rattle.ln_stage.specs.Segments.{ListHasItsSegments, SegmentIsOfThePrefix, SegmentIsUnique, SegmentsMakeTheList};
ghost use Rattle.ln_stage.specs.SiteWalk.{ListsAreWalkedByPrefixes, WalkGoesSiteBySite, WalksAreSegments};

/// The segments of all prefixes of an order, one after the other, are its stage list.
///
/// On it rests that a program which is kept in segments runs the lists.
pub fn segments_make_the_list()
    ensures { SegmentsMakeTheList }
{}

/// A stage list has its segments.
///
/// On it rests that a listing, which has whole lists, is a program in segments.
pub fn list_has_its_segments()
    ensures { ListHasItsSegments }
{}

/// Two orders with the same first places have one segment there.
///
/// On it rests that a segment is kept once for all orders that begin with its sites, and that a site need only be found
/// when it is reached.
pub fn segment_is_of_the_prefix()
    ensures { SegmentIsOfThePrefix }
{}

/// A prefix has at most one segment.
pub fn segment_is_unique()
    ensures { SegmentIsUnique }
{}

/// The walk goes site by site: where one more site is placed, it lists what it listed before, and then what needs the
/// site.
///
/// On it rests that each prefix is visited once.
pub fn walk_goes_site_by_site()
    ensures step { WalkGoesSiteBySite }
    ensures lists { ListsAreWalkedByPrefixes }
    ensures segments { WalksAreSegments }
{}

/// Blocks that are numbered in order of first sight through the segments of all prefixes have the numbers that they have
/// through the lists of all orders, and the stage count is the sum over the segments, each as often as it occurs in a list.
///
/// On it rests that one pass over the prefixes serves for numbers, count and weight.
pub fn first_sight_by_prefixes()
    ensures same { FirstSightByPrefixes }
    ensures fewer { SegmentsAreFewer }
{}
