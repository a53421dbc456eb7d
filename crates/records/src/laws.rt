// The law of the five records.
ghost use Rattle.records.specs.RoundTrip.{RoundTrip};

use super::record::Record;

// A record that was written is read back.
pub fn round_trip<R: Record<N>, const N: usize>()
    ensures { RoundTrip R.layout R.fields R.of_fields }
{}
