// Standardising a matrix, and the root.
ghost use Rattle.std.specs.Prelude.{◌≡◌};
ghost use Rattle.std.specs.Float.{binary64};
ghost use Rattle.root.specs.Root.{root};
ghost use Rattle.mungkelas.specs.Header.{BedStandardise};

use bed_answer::BedAnswer;

#[tactic(auto, using(bed_answer::proofs::AnswerLaws::as_fits, bed_answer::proofs::FitLaws::standardise_fits))]
pub fn bed_impute_and_zero_mean_snps_f64(
    val: &mut [f64],
    iid_count: usize,
    sid_count: usize,
    animal_order: bool,
    apply_in_place: bool,
    use_stats: bool,
    stats: &mut [f64],
) -> BedAnswer
    ensures { BedStandardise iid_count sid_count animal_order apply_in_place use_stats
        result val.old val.new stats.old stats.new }
{
    BedAnswer::from(standardise::impute_and_zero_mean_snps_f64(
        val,
        iid_count,
        sid_count,
        animal_order,
        apply_in_place,
        use_stats,
        stats,
    ))
}

pub fn bed_root_f64(variance: f64) -> f64
    ensures { result ≡ root binary64 variance }
{
    root::root_f64(variance)
}
