// The fields of a list from a run of numbers, in the order of `list_layout`: estimated cash and the cash component are a sign and a size
// each.
use list_layout::FIELDS_WIDTH;
use list_rules::ListFields;

// An amount of cash. Any sign but 0 is minus, and one that no number holds counts as 0.
fn signed(sign: u64, size: u64) -> i64 {
    match sign {
        0 => i64::try_from(size).unwrap_or(0),
        _ => 0i64.checked_sub_unsigned(size).unwrap_or(0),
    }
}

// As the library takes them from a run, but with cash of any size. A number behind the end of a shorter run is 0, and those behind the
// last field of a longer one are not read.
pub fn of_numbers(numbers: &[u64]) -> ListFields {
    let given = numbers.len().min(FIELDS_WIDTH);
    let mut run = [0; FIELDS_WIDTH];
    run[..given].copy_from_slice(&numbers[..given]);
    let [_, _, _, _, estimated_sign, estimated_size, ..] = run;
    let [.., sign, size, _, _, _] = run;
    let mut fields = list_layout::fields_at(&run);
    fields.fund.estimated_cash = signed(estimated_sign, estimated_size);
    fields.cash_component = signed(sign, size);
    fields
}

#[cfg(test)]
mod tests {
    use super::*;

    #[test]
    fn runs_of_any_length(rt: HostRuntime) {
        let numbers = [
            1, 2, 3, 4, 1, 6, 7, 8, 9, 10, 11, 12, 13, 14, 15, 16, 17, 1, 19, 20, 21, 22, 23,
        ];
        for length in [0, 4, 6, 17, 22, 23] {
            let fields = of_numbers(&numbers[..length]);
            let given = list_layout::numbers_of(fields);
            for (place, x) in given.iter().enumerate() {
                let want = if place < length { numbers[place] } else { 0 };
                assert_eq!(rt; *x, want, "{place} of {length}");
            }
        }
    }

    #[test]
    fn amounts_of_any_sign_and_size(rt: HostRuntime) {
        for (sign, size, amount) in [
            (0, 7, 7),
            (1, 7, -7),
            (2, 7, -7),
            (1, 0, 0),
            (0, 9_223_372_036_854_775_807, i64::MAX),
            (0, 9_223_372_036_854_775_808, 0),
            (1, 9_223_372_036_854_775_808, i64::MIN),
            (1, 9_223_372_036_854_775_809, 0),
        ] {
            assert_eq!(rt; signed(sign, size), amount, "{sign} {size}");
        }
    }
}
