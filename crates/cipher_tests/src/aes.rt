//! The standards' vectors, by the program itself.

use aes_core::{Aes128, Aes192, Aes256};

// The keys of SP 800-38A, F.5, as numbers of 16 bytes, and its first counter block and text.
const KEY_128: u128 = 0x2b7e151628aed2a6abf7158809cf4f3c;

const KEY_192: (u128, u128) = (
    0x8e73b0f7da0e6452c810f32b809079e5,
    0x62f8ead2522c6b7b0000000000000000,
);

const KEY_256: (u128, u128) = (
    0x603deb1015ca71be2b73aef0857d7781,
    0x1f352c073b6108d72d9810a30914dff4,
);

const FIRST: u128 = 0xf0f1f2f3f4f5f6f7f8f9fafbfcfdfeff;

const TEXT: [u128; 4] = [
    0x6bc1bee22e409f96e93d7e117393172a,
    0xae2d8a571e03ac9c9eb76fac45af8e51,
    0x30c81c46a35ce411e5fbc1191a0a52ef,
    0xf69f2445df4f9b17ad2b417be66c3710,
];

// The bytes of four blocks.
fn bytes_of(blocks: [u128; 4]) -> [u8; 64] {
    let mut bytes = [0u8; 64];
    for i in 0..4usize {
        bytes[16 * i..16 * i + 16].copy_from_slice(&blocks[i].to_be_bytes());
    }
    bytes
}

// A key of 32 bytes.
fn key_of(parts: (u128, u128)) -> [u8; 32] {
    let mut key = [0u8; 32];
    key[..16].copy_from_slice(&parts.0.to_be_bytes());
    key[16..].copy_from_slice(&parts.1.to_be_bytes());
    key
}

#[test]
fn a_block_is_encrypted_as_in_fips_197_at_each_key_size(rt: HostRuntime) {
    let key = key_of((
        0x000102030405060708090a0b0c0d0e0f,
        0x101112131415161718191a1b1c1d1e1f,
    ));
    let block = 0x00112233445566778899aabbccddeeff_u128.to_be_bytes();
    let short = Aes128::expand(&key[..16]).encrypt(block);
    assert_eq!(rt;
        u128::from_be_bytes(short),
        0x69c4e0d86a7b0430d8cdb78070b4c55a
    );
    let middle = Aes192::expand(&key[..24]).encrypt(block);
    assert_eq!(rt;
        u128::from_be_bytes(middle),
        0xdda97ca4864cdfe06eaf70a0ec0d7191
    );
    let long = Aes256::expand(&key).encrypt(block);
    assert_eq!(rt;
        u128::from_be_bytes(long),
        0x8ea2b7ca516745bfeafc49904b496089
    );
}

#[test]
fn counter_mode_gives_the_ciphertexts_of_sp_800_38a_at_each_key_size(rt: HostRuntime) {
    let mut buf = bytes_of(TEXT);
    Aes128::expand(&KEY_128.to_be_bytes()).ctr_xor(FIRST.to_be_bytes(), &mut buf);
    assert_eq!(rt;
        buf,
        bytes_of([
            0x874d6191b620e3261bef6864990db6ce,
            0x9806f66b7970fdff8617187bb9fffdff,
            0x5ae4df3edbd5d35e5b4f09020db03eab,
            0x1e031dda2fbe03d1792170a0f3009cee,
        ])
    );

    let mut buf = bytes_of(TEXT);
    Aes192::expand(&key_of(KEY_192)[..24]).ctr_xor(FIRST.to_be_bytes(), &mut buf);
    assert_eq!(rt;
        buf,
        bytes_of([
            0x1abc932417521ca24f2b0459fe7e6e0b,
            0x090339ec0aa6faefd5ccc2c6f4ce8e94,
            0x1e36b26bd1ebc670d1bd1d665620abf7,
            0x4f78a7f6d29809585a97daec58c6b050,
        ])
    );

    let mut buf = bytes_of(TEXT);
    Aes256::expand(&key_of(KEY_256)).ctr_xor(FIRST.to_be_bytes(), &mut buf);
    assert_eq!(rt;
        buf,
        bytes_of([
            0x601ec313775789a5b7a7f504bbf3d228,
            0xf443e3ca4d62b59aca84e990cacaf5c5,
            0x2b0930daa23de94ce87017ba2d84988d,
            0xdfc9c58db67aada613c2dd08457941a6,
        ])
    );
}

#[test]
fn a_counter_wraps_in_its_last_four_bytes_alone(rt: HostRuntime) {
    let first = 0x00112233445566778899aabbffffffff_u128;
    let mut buf = [0u8; 32];
    Aes256::expand(&key_of(KEY_256)).ctr_xor(first.to_be_bytes(), &mut buf);
    let mut want = [0u8; 32];
    want[..16].copy_from_slice(&0xc06815122006bf3714633832af072196_u128.to_be_bytes());
    want[16..].copy_from_slice(&0x7d2ecefdee58345b11208406e0ea91da_u128.to_be_bytes());
    assert_eq!(rt; buf, want);
}

#[test]
fn a_short_text_takes_the_first_bytes_of_the_stream(rt: HostRuntime) {
    let text = bytes_of(TEXT);
    let mut whole = text;
    Aes256::expand(&key_of(KEY_256)).ctr_xor(FIRST.to_be_bytes(), &mut whole);
    for len in [0usize, 1, 15, 16, 17, 31, 63] {
        let mut part = text;
        Aes256::expand(&key_of(KEY_256)).ctr_xor(FIRST.to_be_bytes(), &mut part[..len]);
        assert_eq!(rt; part[..len], whole[..len], "{len} bytes");
        assert_eq!(rt; part[len..], text[len..], "after {len} bytes");
    }
}
