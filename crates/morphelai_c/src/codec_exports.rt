// The reader and writer. Each calls the function of its name in morphelai, and says what that says.
// Names and parameters are C's (include/morphelai.h).
ghost use Rattle.std.specs.Prelude.{◌≡◌};
ghost use Rattle.record_bytes.specs.Layout.{record_size};
ghost use Rattle.morphelai.specs.CodecDoor.{Coded, codec_read, codec_write};

// How many bytes a record has.
#[unsafe(no_mangle)]
pub extern "C" fn morphelai_record_size() -> usize
    ensures { result ≡ record_size }
{
    morphelai::morphelai_record_size()
}

// Reads a datagram: the answer, and where it is 0 its header in the little-endian form.
#[unsafe(no_mangle)]
pub extern "C" fn morphelai_read(datagram: &[u8], out: &mut [u8]) -> u64
    ensures { Coded (codec_read datagram.now out.old) result out.new }
{
    morphelai::morphelai_read(datagram, out)
}

// Writes the PDU of a header in its little-endian form and a body.
#[unsafe(no_mangle)]
pub extern "C" fn morphelai_write(header: &[u8], body: &[u8], out: &mut [u8]) -> u64
    ensures { Coded (codec_write header.now body.now out.old)
        result out.new }
{
    morphelai::morphelai_write(header, body, out)
}
