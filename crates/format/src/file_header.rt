// The file headers that came before V2: Legacy, 16 bytes, and V1, 32 bytes, each both ways.
// The bytes are laid out in specs/FileHeader.antt, as docs/FORMAT.md has them. The two are no twins: V1 has a version word before the same
// four fields, and of these only three are wider, so that each offset differs too.
ghost use Rattle.std.specs.Prelude.{◌≡◌};
ghost use Rattle.format.specs.FileHeader.{judge_metadata, legacy_bytes, encode_legacy, parse_legacy, v1_bytes, encode_v1, parse_v1};

use refusal::Refusal;

// What a file header says. The two positions are offsets in the file.
#[derive(Clone, Copy, Debug, PartialEq, Eq)]
pub struct QueueMetadata {
    pub file_len: u64,
    pub elem_cnt: u64,
    pub first_pos: u64,
    pub last_pos: u64,
}

// The bytes of a Legacy header, where each field fits an i32.
pub fn encode_legacy_header(
    file_len: u64,
    elem_cnt: u64,
    first_phys: u64,
    last_phys: u64,
) -> Result<[u8; 16], Refusal>
    ensures { result ≡ encode_legacy file_len elem_cnt first_phys last_phys }
{
    header::judge_fields(
        0x8000_0000,
        0x8000_0000,
        file_len,
        elem_cnt,
        first_phys,
        last_phys,
    )?;
    Ok(legacy_bytes(
        file_len as u32,
        elem_cnt as u32,
        first_phys as u32,
        last_phys as u32,
    ))
}

fn legacy_bytes(file_len: u32, elem_cnt: u32, first_phys: u32, last_phys: u32) -> [u8; 16]
    ensures { result ≡ legacy_bytes file_len elem_cnt first_phys last_phys }
{
    let mut header = [0u8; 16];
    wire::put_number(&mut header, 0, file_len);
    wire::put_number(&mut header, 4, elem_cnt);
    wire::put_number(&mut header, 8, first_phys);
    wire::put_number(&mut header, 12, last_phys);
    header
}

// What the first 16 bytes say, where they are a Legacy header: every field is an i32, and none is negative.
pub fn parse_legacy_header(s: &[u8]) -> Result<QueueMetadata, Refusal>
    ensures { result ≡ parse_legacy s.now }
{
    if s.len() < 16 {
        return Err(Refusal::Short);
    }
    judge_metadata(
        0x8000_0000,
        QueueMetadata {
            file_len: wire::get::<u32, _>(s, 0) as u64,
            elem_cnt: wire::get::<u32, _>(s, 4) as u64,
            first_pos: wire::get::<u32, _>(s, 8) as u64,
            last_pos: wire::get::<u32, _>(s, 12) as u64,
        },
    )
}

// The fields, where each is below its limit; the count is an i32 in both headers.
fn judge_metadata(limit: u64, read: QueueMetadata) -> Result<QueueMetadata, Refusal>
    ensures { result ≡ judge_metadata limit read.file_len read.elem_cnt read.first_pos read.last_pos }
{
    header::judge_fields(
        limit,
        0x8000_0000,
        read.file_len,
        read.elem_cnt,
        read.first_pos,
        read.last_pos,
    )?;
    Ok(read)
}

// The bytes of a V1 header, where the count fits an i32 and each other field an i64.
pub fn encode_v1_header(
    file_len: u64,
    elem_cnt: u64,
    first_phys: u64,
    last_phys: u64,
) -> Result<[u8; 32], Refusal>
    ensures { result ≡ encode_v1 file_len elem_cnt first_phys last_phys }
{
    header::judge_fields(
        0x8000_0000_0000_0000,
        0x8000_0000,
        file_len,
        elem_cnt,
        first_phys,
        last_phys,
    )?;
    Ok(v1_bytes(file_len, elem_cnt as u32, first_phys, last_phys))
}

fn v1_bytes(file_len: u64, elem_cnt: u32, first_phys: u64, last_phys: u64) -> [u8; 32]
    ensures { result ≡ v1_bytes file_len elem_cnt first_phys last_phys }
{
    let mut header = [0u8; 32];
    wire::put_number(&mut header, 0, 0x8000_0001_u32);
    wire::put_number(&mut header, 4, file_len);
    wire::put_number(&mut header, 12, elem_cnt);
    wire::put_number(&mut header, 16, first_phys);
    wire::put_number(&mut header, 24, last_phys);
    header
}

// What the first 32 bytes say, where they are a V1 header. The version word's top bit only tells it from a Legacy header.
pub fn parse_versioned_header(s: &[u8]) -> Result<QueueMetadata, Refusal>
    ensures { result ≡ parse_v1 s.now }
{
    if s.len() < 32 {
        return Err(Refusal::Short);
    }
    let version = wire::get::<u32, _>(s, 0) % 0x8000_0000;
    if version != 1 {
        return Err(Refusal::UnsupportedVersion {
            version: version as u64,
        });
    }
    judge_metadata(
        0x8000_0000_0000_0000,
        QueueMetadata {
            file_len: wire::get(s, 4),
            elem_cnt: wire::get::<u32, _>(s, 12) as u64,
            first_pos: wire::get(s, 16),
            last_pos: wire::get(s, 24),
        },
    )
}
