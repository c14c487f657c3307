// The limits of names, schemas and index lists, run as examples.
#![tactic(auto)]

#[cfg(test)]
mod tests {
    use common::{DataType, Fault, Field, Name, Refusal, Value, first_field, schema};
    use index_lists::{combine_projections, select};
    use std::alloc::Global;
    use std::test::Fail;

    fn field(start: u32, len: u8, data_type: u8) -> Field {
        Field {
            name: Name { start, len },
            data_type,
            nullable: false,
            tag: 0,
        }
    }

    // A text of so many bytes, all `a`.
    fn long_text(heap: Global, count: usize) -> Result<Vec<u8>, Fail> {
        Ok(vec![in heap; b'a'; count]?)
    }

    #[test]
    fn names_lie_in_the_first_65535_bytes(rt: HostRuntime) -> Result<(), Fail> {
        let text = long_text(rt.alloc(), 70_000)?;
        assert!(rt; Name { start: 0, len: 0 }.is_in(&[]));
        assert!(rt; !Name { start: 0, len: 1 }.is_in(&[]));
        assert!(rt;
            Name {
                start: 65_280,
                len: 255,
            }
            .is_in(&text)
        );
        assert!(rt;
            !Name {
                start: 65_281,
                len: 255,
            }
            .is_in(&text)
        );
        assert!(rt;
            Name {
                start: 65_535,
                len: 0,
            }
            .is_in(&text)
        );
        assert!(rt;
            !Name {
                start: 65_536,
                len: 0,
            }
            .is_in(&text)
        );
        assert!(rt;
            !Name {
                start: u32::MAX,
                len: 255,
            }
            .is_in(&text)
        );
        Ok(())
    }

    #[test]
    fn names_are_equal_by_place_or_by_bytes(rt: HostRuntime) {
        let text = b"net tax net nap";
        let net = Name { start: 0, len: 3 };
        assert!(rt; net.equals(Name { start: 8, len: 3 }, text));
        assert!(rt; !net.equals(Name { start: 12, len: 3 }, text));
        assert!(rt; !net.equals(Name { start: 0, len: 2 }, text));
        assert!(rt; Name { start: 3, len: 0 }.equals(Name { start: 7, len: 0 }, text));
        let none = Name { start: 99, len: 3 };
        assert!(rt; none.equals(none, text));
        assert!(rt; !none.equals(net, text));
    }

    #[test]
    fn a_name_spells_its_bytes(rt: HostRuntime) -> Result<(), Fail> {
        let text = b"net tax";
        let Some(bytes) = Name { start: 4, len: 3 }.bytes(text) else {
            return Err(Fail::new("no name"));
        };
        assert!(rt; bytes == b"tax".as_slice());
        assert!(rt; Name { start: 5, len: 3 }.bytes(text).is_none());
        Ok(())
    }

    #[test]
    fn types_are_numbered_1_to_6(rt: HostRuntime) {
        assert!(rt; DataType::try_from(0u8).is_err());
        assert!(rt; DataType::try_from(7u8).is_err());
        assert!(rt; DataType::try_from(255u8).is_err());
        assert!(rt; DataType::try_from(6u8) == Ok(DataType::Utf8));
        assert!(rt; u8::from(DataType::Int64) == 4);
    }

    #[test]
    fn values_fit_their_types(rt: HostRuntime) {
        assert!(rt; Value::Whole(-128).fits(DataType::Int8));
        assert!(rt; !Value::Whole(128).fits(DataType::Int8));
        assert!(rt; Value::Whole(i64::MIN).fits(DataType::Int64));
        assert!(rt; !Value::Whole(2).fits(DataType::Boolean));
        assert!(rt; !Value::Whole(0).fits(DataType::Utf8));
        assert!(rt; Value::Text(u32::MAX).fits(DataType::Utf8));
        assert!(rt; !Value::Text(0).fits(DataType::Int32));
        assert!(rt; Value::Null.fits(DataType::Utf8));
    }

    fn refused(text: &[u8], fields: &[Field]) -> Option<Fault> {
        schema(text, fields).err()
    }

    #[test]
    fn the_first_bad_field_refuses_a_schema(rt: HostRuntime) {
        let text = b"net tax";
        let good = field(0, 3, 4);
        assert_eq!(rt; refused(text, &[]), None);
        assert_eq!(rt; refused(text, &[good, field(4, 3, 6)]), None);
        let name = Some(Fault {
            refusal: Refusal::FieldName,
            position: 1,
        });
        assert_eq!(rt;
            refused(text, &[good, field(5, 3, 7), field(9, 9, 9)]),
            name
        );
        let kind = Some(Fault {
            refusal: Refusal::FieldType,
            position: 2,
        });
        assert_eq!(rt; refused(text, &[good, good, field(4, 3, 7)]), kind);
    }

    #[test]
    fn a_schema_ends_after_65535_fields(rt: HostRuntime) -> Result<(), Fail> {
        let mut fields = vec![in rt.alloc(); field(0, 3, 4); 65_535]?;
        fields.push(field(0, 3, 7))?;
        let Ok(within) = schema(b"net", &fields) else {
            return Err(Fail::new("the field past the end was looked at"));
        };
        assert!(rt; within.len() == 65_535);
        Ok(())
    }

    #[test]
    fn the_first_field_of_a_name_is_found(rt: HostRuntime) {
        let text = b"net tax net";
        let fields = [field(4, 3, 4), field(0, 3, 4), field(8, 3, 4)];
        assert_eq!(rt;
            first_field(text, &fields, Name { start: 8, len: 3 }),
            Some(1)
        );
        assert_eq!(rt; first_field(text, &fields, Name { start: 0, len: 2 }), None);
        assert_eq!(rt; first_field(text, &[], Name { start: 0, len: 3 }), None);
    }

    #[test]
    fn two_index_lists_combine(rt: HostRuntime) {
        let mut out = [9u32; 3];
        assert_eq!(rt;
            combine_projections(Some(&[2, 0]), Some(&[1, 3, 5]), &mut out),
            Ok(Some(2))
        );
        assert!(rt; out == [5, 1, 9]);
        let past = Err(Fault {
            refusal: Refusal::IndexPastList,
            position: 0,
        });
        assert_eq!(rt;
            combine_projections(Some(&[3]), Some(&[1, 3, 5]), &mut out),
            past
        );
        let last = Err(Fault {
            refusal: Refusal::IndexPastList,
            position: 1,
        });
        assert_eq!(rt;
            combine_projections(Some(&[0, u32::MAX]), Some(&[7]), &mut out),
            last
        );
        assert!(rt; out == [5, 1, 9]);
    }

    #[test]
    fn an_output_is_exactly_full_or_one_short(rt: HostRuntime) {
        let mut full = [0u32; 2];
        assert_eq!(rt;
            combine_projections(Some(&[2, 0]), Some(&[1, 3, 5]), &mut full),
            Ok(Some(2))
        );
        assert!(rt; full == [5, 1]);
        let mut short = [8u32; 1];
        let refused = Err(Fault {
            refusal: Refusal::ListTooShort,
            position: 0,
        });
        assert_eq!(rt;
            combine_projections(Some(&[2, 0]), Some(&[1, 3, 5]), &mut short),
            refused
        );
        let past = Err(Fault {
            refusal: Refusal::IndexPastList,
            position: 1,
        });
        assert_eq!(rt;
            combine_projections(Some(&[2, 3]), Some(&[1, 3, 5]), &mut short),
            past
        );
        assert_eq!(rt;
            combine_projections(Some(&[2, 3]), None, &mut short),
            refused
        );
        assert!(rt; short == [8]);
    }

    #[test]
    fn an_absent_list_is_absent_above_and_nothing_below(rt: HostRuntime) {
        let mut out = [9u32; 3];
        assert_eq!(rt;
            combine_projections(None, Some(&[1, 3, 5]), &mut out),
            Ok(None)
        );
        assert_eq!(rt; combine_projections(None, None, &mut out), Ok(None));
        assert!(rt; out == [9, 9, 9]);
        assert_eq!(rt;
            combine_projections(Some(&[7, 4]), None, &mut out),
            Ok(Some(2))
        );
        assert!(rt; out == [7, 4, 9]);
        assert_eq!(rt; combine_projections(Some(&[]), None, &mut []), Ok(Some(0)));
    }

    #[test]
    fn a_row_is_read_by_indices(rt: HostRuntime) {
        let mut out = [0u8; 4];
        assert_eq!(rt; select(&[30u8, 40], 7, &[1, 0, 2], &mut out), Ok(3));
        assert!(rt; out == [40, 30, 7, 0]);
        let refused = Err(Fault {
            refusal: Refusal::ListTooShort,
            position: 0,
        });
        assert_eq!(rt; select(&[30u8, 40], 7, &[1, 0, 2], &mut [0u8; 2]), refused);
    }

    // Whether what a person is told of a refusal at position 7 begins so, and goes on with a sentence.
    fn is_told(heap: Global, refusal: Refusal, number: u8) -> Result<bool, Fail> {
        let told = format!(in heap; "{}", refusal.at(7))?;
        let start = format!(in heap; "refused ({number}) at 7: ")?;
        Ok(told.as_str().starts_with(start.as_str()) && told.len() > start.len() + 20)
    }

    #[test]
    fn every_refusal_is_told_in_a_sentence(rt: HostRuntime) -> Result<(), Fail> {
        let refusals = [
            Refusal::FieldName,
            Refusal::FieldType,
            Refusal::TooManyArguments,
            Refusal::TooManyLevels,
            Refusal::TooFewLevels,
            Refusal::TooManyItems,
            Refusal::UnknownType,
            Refusal::ValueDoesNotFit,
            Refusal::UnknownNode,
            Refusal::NoName,
            Refusal::IndexPastList,
            Refusal::IndexPastSchema,
            Refusal::NoEqualColumn,
            Refusal::NoSuchField,
            Refusal::OtherFieldName,
            Refusal::MissingField,
            Refusal::TooManyNodes,
            Refusal::BatchFull,
            Refusal::ListTooShort,
        ];
        for (number, refusal) in (1u8..=19).zip(refusals) {
            assert_eq!(rt; u8::from(refusal), number);
            assert!(rt; is_told(rt.alloc(), refusal, number)?);
        }
        Ok(())
    }
}
