// Pages, and how many of them a region has at most.
use super::address::SEGMENT;

// The length of a page, of a frame of the pool, and of the longest span.
pub const PAGE: usize = 4096;

// The most pages of a region: a segment's.
pub const REGION: usize = SEGMENT / PAGE;
