// The reply to a stored change whose answer got no memory.
ghost use Rattle.std.specs.Prelude.{◌≡◌, ◌+◌, ◌≤◌, ◌++◌, length, drop};
ghost use Rattle.iam_answer.specs.Replies.{stored_reply};

use itoa::write_digits;

/// What stands before the number.
const FRONT: &str =
    "HTTP/1.1 507 Insufficient Storage\r\ncontent-type: application/json\r\ncontent-length: 104\r\nx-iam-revision: ";

/// What stands behind it.
const BACK: &str =
    "\r\n\r\n{\"error\":{\"code\":507,\"details\":{\"stored\":true},\"message\":\"OUT_OF_MEMORY\",\"status\":\"RESOURCE_EXHAUSTED\"}}";

/// Room for both and for the twenty digits of the longest number.
const ROOM: usize = 232;

/// Room for the reply to a stored change whose answer got no memory, so that it takes none itself.
#[derive(Clone, Copy)]
pub struct StoredReply {
    bytes: [u8; ROOM],
}

// Writes the text so that it ends at `end`, and returns where it starts.
fn write_before(text: &str, bytes: &mut [u8], end: usize) -> usize
    requires { (length text.now ≤ end) × (end ≤ length bytes.old) }
    ensures start { result + length text.now ≡ end }
    ensures written { drop result bytes.new ≡ text.now ++ drop end bytes.old }
{
    let start = end - text.len();
    bytes[start..end].copy_from_slice(text.as_bytes());
    start
}

impl StoredReply {
    pub fn new() -> StoredReply {
        StoredReply { bytes: [0; ROOM] }
    }

    /// The reply: the change of this number is stored, although memory was refused to its answer.
    pub fn bytes(&mut self, number: u64) -> &[u8]
        ensures { result.now ≡ stored_reply number }
    {
        let back = write_before(BACK, &mut self.bytes, ROOM);
        let digits = write_digits(number, &mut self.bytes, back);
        let front = write_before(FRONT, &mut self.bytes, digits);
        &self.bytes[front..]
    }
}
