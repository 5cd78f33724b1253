// The printed form of document 01, put into a lent buffer. Each public function takes the place where its text goes and answers the
// place after it; a byte whose place is past the end is dropped.
#![tactic(auto)]

ghost use Rattle.std.specs.Prelude.{◌≡◌, ◌*◌, ◌<◌, min};
ghost use Rattle.lines.specs.Text.{glyph, digits, decimal, hex, field, fields, beat_line, beat_text, beat_lines, record_in, ok_line, refused_line, last_line, report};
ghost use Rattle.lines.specs.Place.{laid, put, lay};

// The digit of a number below 16.
#[tactic(auto, unfolding(crate::specs::Text::glyph))]
fn glyph(d: u8) -> u8
    requires { d < 16 }
    ensures { result ≡ glyph d }
{
    if d < 10 { b'0' + d } else { b'a' - 10 + d }
}

// How many of so many words are those of accepted records.
fn accepted_words(answer: u64, lent: usize) -> usize
    ensures { result ≡ min (2 * record_in answer) lent }
{
    lent.min(2 * (answer >> 16 & 0xff_ffff) as usize)
}

// A lent buffer, and the place where its next byte goes. Each method lays its text there, and leaves the buffer lent.
#[derive(Drop)]
struct Text<'a> {
    buf: &'a mut [u8],
    at: usize,
}

impl Text<'_> {
    // One byte.
    #[tactic(auto, unfolding(crate::specs::Place::put))]
    fn byte(&mut self, byte: u8)
        ensures laid { laid self.new.buf.now self.new.at ≡ put byte (laid self.old.buf.now self.old.at) }
        ensures lent { self.new.buf.ghost_name ≡ self.old.buf.ghost_name }
    {
        if self.at < self.buf.len() {
            self.buf[self.at] = byte;
            self.at += 1;
        }
    }

    // A text, byte by byte.
    #[tactic(auto, unfolding(crate::specs::Place::lay))]
    fn bytes(&mut self, text: &[u8])
        ensures laid { laid self.new.buf.now self.new.at ≡ lay text.now (laid self.old.buf.now self.old.at) }
        ensures lent { self.new.buf.ghost_name ≡ self.old.buf.ghost_name }
    {
        for byte in text {
            self.byte(*byte);
        }
    }

    // The last `places` decimal digits of n, with no zeros in front.
    #[tactic(auto, using(crate::proofs::Decimals::no_place, crate::proofs::Decimals::one_digit, crate::proofs::Decimals::more_digits))]
    fn digits(&mut self, places: usize, n: u64)
        ensures laid { laid self.new.buf.now self.new.at ≡ lay (digits places n) (laid self.old.buf.now self.old.at) }
        ensures lent { self.new.buf.ghost_name ≡ self.old.buf.ghost_name }
    {
        if places == 0 {
            return;
        }
        if 10 <= n {
            self.digits(places - 1, n / 10);
        }
        self.byte(glyph((n % 10) as u8));
    }

    // A space and a number in decimal.
    #[tactic(auto, unfolding(crate::specs::Place::lay))]
    fn field(&mut self, n: u64)
        ensures laid { laid self.new.buf.now self.new.at ≡ lay (field n) (laid self.old.buf.now self.old.at) }
        ensures lent { self.new.buf.ghost_name ≡ self.old.buf.ghost_name }
    {
        self.byte(b' ');
        self.digits(20, n);
    }

    // Numbers, a space before each.
    #[tactic(auto, using(crate::proofs::Laying::fields_turn, crate::proofs::Laying::fields_done))]
    fn fields(&mut self, numbers: &[u64])
        ensures laid { laid self.new.buf.now self.new.at ≡ lay (fields numbers.now) (laid self.old.buf.now self.old.at) }
        ensures lent { self.new.buf.ghost_name ≡ self.old.buf.ghost_name }
    {
        for n in numbers {
            self.field(*n);
        }
    }

    // Lanes as two hex digits, lane 7 the top bit.
    #[tactic(auto, unfolding(crate::specs::Place::lay))]
    fn hex(&mut self, lanes: u8)
        ensures laid { laid self.new.buf.now self.new.at ≡ lay (hex lanes) (laid self.old.buf.now self.old.at) }
        ensures lent { self.new.buf.ghost_name ≡ self.old.buf.ghost_name }
    {
        self.byte(glyph(lanes / 16));
        self.byte(glyph(lanes % 16));
    }

    // A beat's line, with its letter and its numbers: record, clock, bank, row, column.
    #[tactic(auto, using(crate::proofs::BeatLines::line_parts))]
    fn beat_line(&mut self, letter: u8, numbers: &[u64], lanes: u8)
        ensures laid { laid self.new.buf.now self.new.at ≡ lay (beat_line letter numbers.now lanes) (laid self.old.buf.now self.old.at) }
        ensures lent { self.new.buf.ghost_name ≡ self.old.buf.ghost_name }
    {
        self.byte(letter);
        self.fields(numbers);
        self.byte(b' ');
        self.hex(lanes);
        self.byte(b'\n');
    }

    // The line of record k, from the two words that the judge writes of it; nothing where they hold no beat, kind 0. Kind 1 is a READ's.
    #[tactic(auto, unfolding(crate::specs::Text::beat_text, crate::specs::Place::lay))]
    fn beat(&mut self, k: u64, word: u64, clock: u64)
        ensures laid { laid self.new.buf.now self.new.at ≡ lay (beat_text k word clock) (laid self.old.buf.now self.old.at) }
        ensures lent { self.new.buf.ghost_name ≡ self.old.buf.ghost_name }
    {
        let letter = match word >> 48 & 0xff {
            0 => return,
            1 => b'R',
            _ => b'W',
        };
        let bank = word >> 40 & 0xff;
        let row = word >> 24 & 0xffff;
        let column = word >> 8 & 0xffff;
        let numbers = [k, clock, bank, row, column];
        self.beat_line(letter, &numbers, (word & 0xff) as u8);
    }

    // The lines of the records from 0 on, from two words each.
    #[tactic(auto, using(crate::proofs::BeatLines::record_turn, crate::proofs::BeatLines::records_done, crate::proofs::BeatLines::records_of))]
    fn beats(&mut self, words: &[u64])
        ensures laid { laid self.new.buf.now self.new.at ≡ lay (beat_lines 0 words.now) (laid self.old.buf.now self.old.at) }
        ensures lent { self.new.buf.ghost_name ≡ self.old.buf.ghost_name }
    {
        let (records, _) = words.as_chunks::<2>();
        for (k, [word, clock]) in records.iter().enumerate() {
            self.beat(k as u64, *word, *clock);
        }
    }

    // `OK` with the record count.
    #[tactic(auto, using(crate::proofs::Reports::ok_parts))]
    fn ok(&mut self, count: u64)
        ensures laid { laid self.new.buf.now self.new.at ≡ lay (ok_line count) (laid self.old.buf.now self.old.at) }
        ensures lent { self.new.buf.ghost_name ≡ self.old.buf.ghost_name }
    {
        self.bytes(b"OK");
        self.field(count);
        self.byte(b'\n');
    }

    // `REFUSED` with its numbers: record, number, interval.
    #[tactic(auto, using(crate::proofs::Reports::refused_parts))]
    fn refused(&mut self, numbers: &[u64])
        ensures laid { laid self.new.buf.now self.new.at ≡ lay (refused_line numbers.now) (laid self.old.buf.now self.old.at) }
        ensures lent { self.new.buf.ghost_name ≡ self.old.buf.ghost_name }
    {
        self.bytes(b"REFUSED");
        self.fields(numbers);
        self.byte(b'\n');
    }

    // The last line, from the judge's answer.
    #[tactic(auto, unfolding(crate::specs::Text::last_line))]
    fn last_line(&mut self, answer: u64)
        ensures laid { laid self.new.buf.now self.new.at ≡ lay (last_line answer) (laid self.old.buf.now self.old.at) }
        ensures lent { self.new.buf.ghost_name ≡ self.old.buf.ghost_name }
    {
        let record = answer >> 16 & 0xff_ffff;
        match answer & 0xff {
            0 => self.ok(record),
            number => self.refused(&[record, number, answer >> 8 & 0xff]),
        }
    }
}

// A text, byte by byte.
pub fn put_text(text: &[u8], buf: &mut [u8], at: usize) -> usize
    ensures { laid buf.new result ≡ lay text.now (laid buf.old at) }
{
    let mut out = Text { buf, at };
    out.bytes(text);
    out.at
}

// Numbers, a space before each.
pub fn put_fields(numbers: &[u64], buf: &mut [u8], at: usize) -> usize
    ensures { laid buf.new result ≡ lay (fields numbers.now) (laid buf.old at) }
{
    let mut text = Text { buf, at };
    text.fields(numbers);
    text.at
}

// The lines of the records from 0 on, from two words each.
pub fn put_beats(words: &[u64], buf: &mut [u8], at: usize) -> usize
    ensures { laid buf.new result ≡ lay (beat_lines 0 words.now) (laid buf.old at) }
{
    let mut text = Text { buf, at };
    text.beats(words);
    text.at
}

// The last line, from the judge's answer.
pub fn put_last_line(answer: u64, buf: &mut [u8], at: usize) -> usize
    ensures { laid buf.new result ≡ lay (last_line answer) (laid buf.old at) }
{
    let mut text = Text { buf, at };
    text.last_line(answer);
    text.at
}

// All that is printed of a trace, from the judge's words and its answer.
#[tactic(auto, using(crate::proofs::Reports::report_parts))]
pub fn report(words: &[u64], answer: u64, buf: &mut [u8]) -> usize
    ensures { laid buf.new result ≡ lay (report words.now answer) (laid buf.old 0) }
{
    let end = accepted_words(answer, words.len());
    let mut text = Text { buf, at: 0 };
    text.beats(&words[..end]);
    text.last_line(answer);
    text.at
}
