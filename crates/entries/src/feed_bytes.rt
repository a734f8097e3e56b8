// The feed as bytes that the host lends from call to call: the bytes held, how many they are, and what the last call took and wrote, each a number
// of eight bytes.
ghost use Rattle.std.specs.Prelude.{◌≡◌, length};
ghost use Rattle.entries.specs.Feed.{feed_at, feed_bytes, push_bytes_s, close_bytes_s, Kept, Told};

use crate::REFUSED;
use digits::{get, put};
use feed::Feed;

// The bytes of a feed.
const LENGTH: usize = 32;

// The feed in the first 16 bytes.
fn load(s: &[u8]) -> Feed
    ensures { result ≡ feed_at s.now }
{
    Feed {
        held: get(s, 0, 8),
        length: get(s, 8, 8) as usize,
    }
}

// Writes a feed and the two counts.
fn store(s: &mut [u8], f: Feed, taken: usize, written: usize)
    requires { length s.old ≡ 32 }
    ensures { s.new ≡ feed_bytes f taken written }
{
    put(s, 0, 8, f.held);
    put(s, 8, 8, f.length as u64);
    put(s, 16, 8, taken as u64);
    put(s, 24, 8, written as u64);
}

// Takes what it can of the piece. A feed of another length is refused, and then nothing is touched.
pub fn rvt_feed_push(feed: &mut [u8], piece: &[u8], answers: &mut [u8]) -> u64
    ensures { Kept (push_bytes_s feed.old piece.now answers.old) result feed.new answers.new }
{
    if feed.len() != LENGTH {
        return REFUSED;
    }
    let f = load(feed);
    let t = f.push(piece, answers);
    let next = t.feed;
    store(feed, next, t.taken, t.written);
    u8::from(t.code) as u64
}

// Closes the feed. One of another length is refused, and then nothing is touched.
pub fn rvt_feed_close(feed: &mut [u8]) -> u64
    ensures { Told (close_bytes_s feed.old) result feed.new }
{
    if feed.len() != LENGTH {
        return REFUSED;
    }
    let f = load(feed);
    let t = f.close();
    let next = t.feed;
    store(feed, next, 0, 0);
    u8::from(t.code) as u64
}
