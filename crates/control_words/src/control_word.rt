ghost use Rattle.std.specs.Prelude.{◌≡◌, ◌↔◌, ◌-◌, ◌*◌, ◌/◌, ◌^◌, ◌<◌, ◌==◌, ℕ, IsOk, IfOk};
ghost use Rattle.std.specs.Bool.{IsTrue};
ghost use Rattle.std.specs.Int.{bit_at};
ghost use Rattle.lk_base.specs.Fields.{channel_number, crc_field, field, flow_field, has_burst, has_end, has_sop, is_control_word, multi_field, reset_field};
ghost use Rattle.control_words.specs.ControlWord.{IsWordOf, burst_channel, end_of};
ghost use Rattle.control_words.specs.declared.fields.Control.{Control};

use super::fields::{Control, Eop, NotControl};

// why: ControlWord::control is the only conversion to the fields, and there is no TryFrom beside it. The hexadecimal word of a
// flow row is read digit by digit, since its definition allows the digits of either case one by one; hex::decode_to_slice
// gives bytes, and its errors more than the rule has.
/// A control word by its number, and each of its fields by name. Any number of 64 bits has them, also one that no receiver
/// accepts.
#[derive(Clone, Copy, Debug, PartialEq, Eq)]
pub struct ControlWord(pub u64);

impl ControlWord {
    // The bits from bit `low` up, as many as `count`.
    fn bits(self, low: u32, count: u32) -> u64
        requires low { low < 64 }
        requires count { count < 64 }
        ensures { result ≡ field low count self.0 }
    {
        (self.0 >> low) & ((1u64 << count) - 1)
    }

    /// Whether a receiver accepts the number as a control word: bit 63 is 1, and bits 60:57, the end format, are 0000, 0001 or
    /// 1xxx.
    pub fn is_accepted(self) -> bool
        ensures { result ≡ is_control_word self.0 }
    {
        let highest = self.bits(63, 1);
        let format = self.bits(57, 4);
        highest == 1 && (format == 0 || format == 1 || 8 <= format)
    }

    /// Bit 62: data of a burst follow; otherwise the word is an idle.
    pub fn is_burst(self) -> bool
        ensures { result ≡ has_burst self.0 }
    {
        self.bits(62, 1) == 1
    }

    /// Bit 61 (SOP): the data that follow begin a packet.
    pub fn starts_packet(self) -> bool
        ensures { result ≡ has_sop self.0 }
    {
        self.bits(61, 1) == 1
    }

    /// Whether the end format, bits 60:57, is not 0000: a packet ends before the word, rightly or with an error. It is true of 0010 to
    /// 0111, too, which no receiver accepts.
    pub fn ends_packet(self) -> bool
        ensures { result ≡ has_end self.0 }
    {
        1 <= self.bits(57, 4)
    }

    /// Bits 60:57, the end format: how the data before the word end. For 0010 to 0111, which stand for no end, it is `End(0)`, which no
    /// accepted word has. It does not look at bit 63.
    pub fn end_format(self) -> Eop
        ensures { result ≡ end_of self.0 }
    {
        match self.bits(57, 4) {
            0 => Eop::Going,
            1 => Eop::Error,
            8 => Eop::End(8),
            format => Eop::End(format.saturating_sub(8) as u8),
        }
    }

    /// Bit 56: the first entries of the calendar stand in this word.
    pub fn reset(self) -> bool
        ensures { result ≡ (reset_field self.0 == 1) }
    {
        self.bits(56, 1) == 1
    }

    /// Bits 55:40, the in-band flow control: the states of 16 entries of the calendar.
    pub fn flow(self) -> u16
        ensures { result ≡ flow_field self.0 }
    {
        self.bits(40, 16) as u16
    }

    /// Bit 55 - `i`: true if entry `i` (0..=15) of the sixteen entries of the calendar is on.
    pub fn entry(self, i: u32) -> bool
        requires { i < 16 }
        ensures { result ≡ (bit_at self.0 (55 - i) == 1) }
    {
        (self.0 >> (55 - i)) & 1 == 1
    }

    // why: The channel of a burst is ControlWord::channel(wide), and there is no function channel_number on a Control: its
    // clause is channel_number wide of the word.
    /// Bits 39:32, the channel of the data that follow; where channel numbers are wide, bits 31:24 are the upper eight bits of its
    /// number.
    pub fn channel(self, wide: bool) -> u16
        ensures { result ≡ channel_number wide self.0 }
    {
        let low = self.bits(32, 8) as u16;
        let high = self.multi() as u16;
        if wide { low + 256 * high } else { low }
    }

    /// The channel of the burst that follows, if one does.
    pub fn burst_channel(self, wide: bool) -> Option<u16>
        ensures { result ≡ burst_channel wide self.0 }
    {
        if self.is_burst() {
            Some(self.channel(wide))
        } else {
            None
        }
    }

    /// Bits 31:24, for multiple use.
    pub fn multi(self) -> u8
        ensures { result ≡ multi_field self.0 }
    {
        self.bits(24, 8) as u8
    }

    /// Bits 23:0, the checksum that the word carries, whether it is right or not.
    pub fn crc(self) -> u32
        ensures { result ≡ crc_field self.0 }
    {
        self.bits(0, 24) as u32
    }

    /// The number with zeros in bits 23:0.
    pub fn without_crc(self) -> u64
        ensures { result ≡ self.0 / 2 ^ 24 * 2 ^ 24 }
    {
        self.0 >> 24 << 24
    }

    // why: A control word is carried as its number (Word::Control), and is a ControlWord if its fields are read; from_word
    // gives control and crc of it in one call. The type is in control_words and not beside Word, since a change of lk_base
    // proves the whole project again.
    /// The fields of a control word, the only ones that have its number. Bits that no sender sets are taken as they come.
    ///
    /// # Errors
    ///
    /// `NotControl` exactly where the number is not accepted: its bit 63 is 0, or its end format is one of 0010 to 0111.
    pub fn control(self) -> Result<Control, NotControl>
        ensures ok { IfOk result (λ c. IsWordOf c (crc_field self.0) self.0) }
        ensures only { (c : Control) (crc : ℕ) → IsWordOf c crc self.0 → result ≡ Ok c }
        ensures control { IsOk result ↔ IsTrue (is_control_word self.0) }
    {
        if !self.is_accepted() {
            return Err(NotControl);
        }
        Ok(Control {
            burst: self.is_burst(),
            sop: self.starts_packet(),
            eop: self.end_format(),
            reset: self.reset(),
            flow: self.flow(),
            channel: self.channel(false) as u8,
            multi: self.multi(),
        })
    }
}
