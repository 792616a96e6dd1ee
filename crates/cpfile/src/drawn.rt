//! What a CP text draws.
use pattern::Crease;
use ports::Listed;

/// What a CP text draws: a crease for each of its lines but those that are dropped, in their order,
/// and how many are dropped. A line is dropped where its two ends are one point and where it lies
/// on one side of the sheet.
#[derive(Drop)]
pub struct CpLines {
    pub lines: Listed<Crease>,
    pub dropped: u64,
}
