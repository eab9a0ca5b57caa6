//! The fields of a record.

ghost use Rattle.std.specs.Prelude.{◌≡◌, ◌<◌, Ok, Err, MatchResult, length, IfOk};
ghost use Rattle.vault_crypt.specs.VaultFile.{file_read};
ghost use Rattle.sealed_text.specs.declared.sealed.Sealed.{Sealed};

/// The version of a record.
pub(crate) const VERSION: u8 = 1;

// Where the IV stands, and the bytes behind it.
const IV_AT: usize = 1;

const TEXT_AT: usize = 13;

const TAG_BYTES: usize = 16;

// The bytes of a record beside the encrypted ones.
const FRAME: usize = 29;

// The bytes of the largest record.
const LARGEST: usize = 49_181;

/// The fields of a record behind its version.
#[derive(Drop)]
pub(crate) struct Parts<'a> {
    pub iv: [u8; 12],
    pub text: &'a [u8],
    pub tag: [u8; 16],
}

/// The fields of a record, or the place where it breaks its form.
#[tactic(auto, unfolding(crate::specs::VaultFile::file_read))]
pub(crate) fn parts_of(bytes: &[u8]) -> Result<Parts<'_>, usize>
    ensures exact { MatchResult result
        (λ parts. file_read bytes.now ≡ Ok (record { iv = parts.iv; text = parts.text.now; tag = parts.tag }))
        (λ place. file_read bytes.now ≡ Err place) }
    ensures size { IfOk result (λ parts. length parts.text.now < 65536) }
{
    let len = bytes.len();
    if len == 0 || bytes[0] != VERSION {
        return Err(0);
    }
    if len < TEXT_AT {
        return Err(IV_AT);
    }
    if len < FRAME {
        return Err(TEXT_AT);
    }
    if len > LARGEST {
        return Err(LARGEST);
    }
    let mut iv = [0; 12];
    iv.copy_from_slice(&bytes[IV_AT..TEXT_AT]);
    let text = &bytes[TEXT_AT..len - TAG_BYTES];
    let mut tag = [0; 16];
    tag.copy_from_slice(&bytes[len - TAG_BYTES..]);
    Ok(Parts { iv, text, tag })
}
