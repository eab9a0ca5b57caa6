//! The vectors of the GCM specification (McGrew and Viega, appendix B) by the program itself, one-bit
//! changes, and the bit rule beside the table.

ghost use Rattle.std.specs.Prelude.{◌*◌, ◌≤◌};

use gcm_seal::{
    BadTag, HashKey, KeySize, open_in_place, product, seal_and_open, seal_in_place, tag_with,
};

// Test cases 4, 10 and 16: a key of 16, 24 or 32 bytes, 20 bytes of associated data, 60 of text.
const KEY: [u128; 2] = [
    0xfeffe9928665731c6d6a8f9467308308,
    0xfeffe9928665731c6d6a8f9467308308,
];

const IV: [u8; 12] = [
    0xca, 0xfe, 0xba, 0xbe, 0xfa, 0xce, 0xdb, 0xad, 0xde, 0xca, 0xf8, 0x88,
];

const AAD: [u8; 20] = [
    0xfe, 0xed, 0xfa, 0xce, 0xde, 0xad, 0xbe, 0xef, 0xfe, 0xed, 0xfa, 0xce, 0xde, 0xad, 0xbe, 0xef,
    0xab, 0xad, 0xda, 0xd2,
];

const TEXT: [u128; 4] = [
    0xd9313225f88406e5a55909c5aff5269a,
    0x86a7a9531534f7da2e4c303d8a318a72,
    0x1c3c0c95956809532fcf0e2449a6b525,
    0xb16aedf5aa0de657ba637b3900000000,
];

const LONG_CIPHERTEXT: [u128; 4] = [
    0x522dc1f099567d07f47f37a32a84427d,
    0x643a8cdcbfe5c0c97598a2bd2555d1aa,
    0x8cb08e48590dbb3da7b08b1056828838,
    0xc5f61e6393ba7a0abcc9f66200000000,
];

const LONG_TAG: u128 = 0x76fc6ece0f4e1768cddf8853bb2d551b;

// The first bytes of some blocks.
fn bytes_of<const N: usize, const LEN: usize>(blocks: [u128; N]) -> [u8; LEN]
    requires { LEN ≤ 16 * N }
{
    let mut bytes = [0u8; LEN];
    'bytes: for i in 0..LEN {
        bytes[i] = blocks[i / 16].to_be_bytes()[i % 16];
    }
    bytes
}

fn long_key() -> [u8; 32] {
    bytes_of::<2, 32>(KEY)
}

#[test]
fn zeros_seal_as_in_the_specification(rt: HostRuntime) {
    let mut text = [0u8; 0];
    let short = tag_with(KeySize::K128, &[0; 16], &[0; 12], b"", &mut text);
    assert_eq!(rt;
        u128::from_be_bytes(short),
        0x58e2fccefa7e3061367f1d57a4e7455a
    );
    let long = tag_with(KeySize::K256, &[0; 32], &[0; 12], b"", &mut text);
    assert_eq!(rt;
        u128::from_be_bytes(long),
        0x530f8afbc74536b9a963b4f1c4cb738b
    );
    let mut block = [0u8; 16];
    let tag = seal_in_place(&[0; 32], &[0; 12], b"", &mut block);
    assert_eq!(rt;
        u128::from_be_bytes(block),
        0xcea7403d4d606b6e074ec5d3baf39d18
    );
    assert_eq!(rt;
        u128::from_be_bytes(tag),
        0xd0d1c8a799996bf0265b98b5d48ab919
    );
}

#[test]
fn data_and_a_short_last_block_seal_as_in_the_specification_at_each_key_size(rt: HostRuntime) {
    let mut text = bytes_of::<4, 60>(TEXT);
    let tag = tag_with(KeySize::K128, &long_key()[..16], &IV, &AAD, &mut text);
    assert_eq!(rt;
        text,
        bytes_of::<4, 60>([
            0x42831ec2217774244b7221b784d0d49c,
            0xe3aa212f2c02a4e035c17e2329aca12e,
            0x21d514b25466931c7d8f6a5aac84aa05,
            0x1ba30b396a0aac973d58e09100000000,
        ])
    );
    assert_eq!(rt;
        u128::from_be_bytes(tag),
        0x5bc94fbc3221a5db94fae95ae7121a47
    );

    let mut text = bytes_of::<4, 60>(TEXT);
    let tag = tag_with(KeySize::K192, &long_key()[..24], &IV, &AAD, &mut text);
    assert_eq!(rt;
        text,
        bytes_of::<4, 60>([
            0x3980ca0b3c00e841eb06fac4872a2757,
            0x859e1ceaa6efd984628593b40ca1e19c,
            0x7d773d00c144c525ac619d18c84a3f47,
            0x18e2448b2fe324d9ccda271000000000,
        ])
    );
    assert_eq!(rt;
        u128::from_be_bytes(tag),
        0x2519498e80f1478f37ba55bd6d27618c
    );

    let mut text = bytes_of::<4, 60>(TEXT);
    let tag = tag_with(KeySize::K256, &long_key(), &IV, &AAD, &mut text);
    assert_eq!(rt; text, bytes_of::<4, 60>(LONG_CIPHERTEXT));
    assert_eq!(rt; u128::from_be_bytes(tag), LONG_TAG);
}

#[test]
fn a_sealed_text_opens(rt: HostRuntime) {
    let mut buf = bytes_of::<4, 60>(LONG_CIPHERTEXT);
    assert_eq!(rt;
        open_in_place(&long_key(), &IV, &AAD, &mut buf, &LONG_TAG.to_be_bytes()),
        Ok(())
    );
    assert_eq!(rt; buf, bytes_of::<4, 60>(TEXT));
    assert_eq!(rt;
        seal_and_open(&long_key(), &IV, &AAD, &mut buf),
        Ok(LONG_TAG.to_be_bytes())
    );
    assert_eq!(rt; buf, bytes_of::<4, 60>(TEXT));
}

#[test]
fn any_changed_bit_is_refused_and_the_buffer_stays(rt: HostRuntime) {
    let key = long_key();
    let sealed = bytes_of::<4, 60>(LONG_CIPHERTEXT);
    for bit in 0..480usize {
        let mut changed = sealed;
        changed[bit / 8] ^= 1 << (bit % 8);
        let mut buf = changed;
        let opened = open_in_place(&key, &IV, &AAD, &mut buf, &LONG_TAG.to_be_bytes());
        assert_eq!(rt; opened, Err(BadTag), "bit {bit} of the text");
        assert_eq!(rt; buf, changed, "bit {bit} of the text");
    }
    for bit in 0..160usize {
        let mut aad = AAD;
        aad[bit / 8] ^= 1 << (bit % 8);
        let mut buf = sealed;
        let opened = open_in_place(&key, &IV, &aad, &mut buf, &LONG_TAG.to_be_bytes());
        assert_eq!(rt; opened, Err(BadTag), "bit {bit} of the associated data");
        assert_eq!(rt; buf, sealed, "bit {bit} of the associated data");
    }
    for bit in 0..128u32 {
        let tag = LONG_TAG ^ (1 << bit);
        let mut buf = sealed;
        let opened = open_in_place(&key, &IV, &AAD, &mut buf, &tag.to_be_bytes());
        assert_eq!(rt; opened, Err(BadTag), "bit {bit} of the tag");
        assert_eq!(rt; buf, sealed, "bit {bit} of the tag");
    }
}

#[test]
fn the_table_multiplies_as_the_bit_rule(rt: HostRuntime) {
    let h = 0x66e94bd4ef8a2c3b884cfa59ca342b2e;
    let key = HashKey::new(h);
    assert_eq!(rt;
        key.product(0x0388dace60b6a392f328c2b971b2fe78),
        0x5e2ec746917062882c85b0685353deb7
    );
    for bit in 0..128u32 {
        assert_eq!(rt; key.product(1 << bit), product(1 << bit, h), "bit {bit}");
    }
}
