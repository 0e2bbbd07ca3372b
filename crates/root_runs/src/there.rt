// Which collections are there.
ghost use Rattle.std.specs.Prelude.{◌≡◌, nat_lt};
ghost use Rattle.topic_book.specs.Fitness.{shards_of};

use stream_site::{Turns, shards_of};
use tuple_values::Text;

/// Whether the collection has shards at the site.
pub(crate) fn is_there<T: Turns>(site: &T, collection: &Text) -> bool
    ensures { result ≡ nat_lt 0 (shards_of (T.layout site.now).names collection.now) }
{
    shards_of(site.names(), collection.as_str()) > 0
}
