//! The commands of docs/USERS.md, as docs/tutorial-tests.py writes them.
use crate::steps::{Step, follow};
use std::test::Fail;

const FILES: [(&str, &str); 6] = [
    (
        "by-hand.txt",
        "lincs-refutation 1 separation
3175 -775 0 1550 30 1551 0
3176 -776 0 1552 57 58 1553 0
3177 -778 0 1556 127 1557 0
3178 -779 0 1558 151 152 153 1559 0
3179 -780 0 1560 1561 0
3180 94 0 3175 3176 3177 3178 3179 1562 1554 0
3181 -1147 0 2356 32 33 2357 0
3182 -1148 0 2358 2359 0
3183 -1150 0 2362 125 2363 0
3184 -1151 0 2364 150 151 2365 0
3185 -1152 0 2366 2367 0
3186 0 3180 89 3181 3182 3183 3184 3185 2368 2361 0
",
    ),
    (
        "candidates.csv",
        "# Suppliers that applied this year.
name,Price,Delivery,OnTime,Defects,Audit,Solvency
Ashdown,12.85,22,94.7,620,71,sound
Bellamy,11.45,14,97.6,200,67,sound
Corvane,11.85,25,93.9,400,76,sound
Delamere,12.55,23,96.3,290,69,strong
Emberley,11.10,18,95.9,270,79,sound
Fairholm,13.10,23,95.5,30,71,sound
Grantley,13.90,15,99.2,660,76,sound
Hollis,13.60,26,91.3,410,72,fair
Ingram,10.80,7,97,110,83,strong
Jessop,15.60,32,95.1,1140,53,fair
",
    ),
    (
        "decisions.csv",
        "# Decisions of the purchasing board.
name,Price,Delivery,OnTime,Defects,Audit,Solvency,category
Aldermoor,14.00,28,93,1130,70,fair,Approved
Brightwell,12.60,18,98.8,40,84,sound,Approved
Castellan,9.30,15,99.8,310,77,strong,Approved
Dunmore,15.35,40,93.4,1010,58,fair,Phase out
Eastgate,11.05,22,94.5,280,69,fair,Approved
Ferrand,14.45,23,91.7,750,58,weak,Phase out
Galvane,13.65,23,94.5,570,82,strong,Approved
Harrowby,14.30,27,91,840,54,fair,Phase out
Isenholt,12.80,23,95.2,60,74,sound,Approved
Jubilee,14.80,22,92.9,740,56,weak,Phase out
Kestrel,12.40,16,96,180,74,fair,Approved
Lindholm,11.90,12,94,150,82,fair,Preferred
Marlow,11.50,11,98.3,140,90,sound,Preferred
Norden,15.05,26,89.8,420,68,fair,Phase out
Okehurst,11.20,18,97.5,190,76,fair,Approved
Pelham,11.60,18,99,220,70,fair,Preferred
Quarrie,14.00,28,93.6,990,56,weak,Approved
Rosario,10.75,10,98.7,340,84,strong,Preferred
Stanmore,13.05,12,99.8,30,89,strong,Preferred
Tidewell,13.90,17,95.5,90,76,strong,Approved
",
    ),
    (
        "disputed.csv",
        "# The same suppliers, with the categories of Kestrel and Lindholm exchanged.
name,Price,Delivery,OnTime,Defects,Audit,Solvency,category
Aldermoor,14.00,28,93,1130,70,fair,Approved
Brightwell,12.60,18,98.8,40,84,sound,Approved
Castellan,9.30,15,99.8,310,77,strong,Approved
Dunmore,15.35,40,93.4,1010,58,fair,Phase out
Eastgate,11.05,22,94.5,280,69,fair,Approved
Ferrand,14.45,23,91.7,750,58,weak,Phase out
Galvane,13.65,23,94.5,570,82,strong,Approved
Harrowby,14.30,27,91,840,54,fair,Phase out
Isenholt,12.80,23,95.2,60,74,sound,Approved
Jubilee,14.80,22,92.9,740,56,weak,Phase out
Kestrel,12.40,16,96,180,74,fair,Preferred
Lindholm,11.90,12,94,150,82,fair,Approved
Marlow,11.50,11,98.3,140,90,sound,Preferred
Norden,15.05,26,89.8,420,68,fair,Phase out
Okehurst,11.20,18,97.5,190,76,fair,Approved
Pelham,11.60,18,99,220,70,fair,Preferred
Quarrie,14.00,28,93.6,990,56,weak,Approved
Rosario,10.75,10,98.7,340,84,strong,Preferred
Stanmore,13.05,12,99.8,30,89,strong,Preferred
Tidewell,13.90,17,95.5,90,76,strong,Approved
",
    ),
    (
        "model.yml",
        "# yaml-language-server: $schema=../../schemas/model.schema.json
# MR-Sort: weights 25, 20, 20, 15, 10, 10 and a majority of 60, each weight divided by 60
kind: ncs-classification-model
format_version: 1
accepted_values:                       # one item for each criterion: its profiles, from the lowest boundary
  - kind: thresholds
    thresholds: [14.5, 12]             # Price
  - kind: thresholds
    thresholds: [30, 14]               # Delivery
  - kind: thresholds
    thresholds: [92.5, 98]             # OnTime
  - kind: thresholds
    thresholds: [600, 250]             # Defects
  - kind: thresholds
    thresholds: [65, 80]               # Audit
  - kind: thresholds
    thresholds: [fair, sound]          # Solvency
sufficient_coalitions:
  - &coalitions
    kind: weights
    criterion_weights: [0.416667, 0.333334, 0.333334, 0.25, 0.166667, 0.166667]
  - *coalitions                        # the same weights at the second boundary
",
    ),
    (
        "problem.yml",
        "# yaml-language-server: $schema=../../schemas/problem.schema.json
# Suppliers of machined parts, judged once a year
kind: classification-problem
format_version: 1
criteria:
  - name: Price                        # EUR for one part
    value_type: real
    preference_direction: decreasing
    min_value: 0
    max_value: 50
  - name: Delivery                     # days from order to delivery
    value_type: integer
    preference_direction: decreasing
    min_value: 0
    max_value: 120
  - name: OnTime                       # percent of orders that came on time
    value_type: real
    preference_direction: increasing
    min_value: 0
    max_value: 100
  - name: Defects                      # defective parts in a million
    value_type: integer
    preference_direction: decreasing
    min_value: 0
    max_value: 1000000
  - name: Audit                        # points of the last quality audit
    value_type: integer
    preference_direction: increasing
    min_value: 0
    max_value: 100
  - name: Solvency                     # from the worst to the best
    value_type: enumerated
    ordered_values: [weak, fair, sound, strong]
ordered_categories:                    # from the worst to the best
  - name: Phase out
  - name: Approved
  - name: Preferred
",
    ),
];

const STEPS: [Step<'_>; 21] = [
    Step {
        line: "describe problem problem.yml",
        target: "",
        screen: true,
        shown: "problem: 6 criteria, 3 categories
criterion 0: \"Price\", real, decreasing, from 0 to 50
criterion 1: \"Delivery\", integer, decreasing, from 0 to 120
criterion 2: \"OnTime\", real, increasing, from 0 to 100
criterion 3: \"Defects\", integer, decreasing, from 0 to 1000000
criterion 4: \"Audit\", integer, increasing, from 0 to 100
criterion 5: \"Solvency\", enumerated, [\"weak\", \"fair\", \"sound\", \"strong\"]
category 0: \"Phase out\"
category 1: \"Approved\"
category 2: \"Preferred\"
",
    },
    Step {
        line: "describe model problem.yml model.yml",
        target: "",
        screen: true,
        shown: "model: 6 criteria, 2 boundaries
criterion 0 boundary 1: at most 14.5
criterion 0 boundary 2: at most 12
criterion 1 boundary 1: at most 30
criterion 1 boundary 2: at most 14
criterion 2 boundary 1: at least 92.5
criterion 2 boundary 2: at least 98
criterion 3 boundary 1: at most 600
criterion 3 boundary 2: at most 250
criterion 4 boundary 1: at least 65
criterion 4 boundary 2: at least 80
criterion 5 boundary 1: at least \"fair\"
criterion 5 boundary 2: at least \"sound\"
boundary 1: weights [0.416667, 0.333334, 0.333334, 0.25, 0.166667, 0.166667]
boundary 2: weights [0.416667, 0.333334, 0.333334, 0.25, 0.166667, 0.166667]
",
    },
    Step {
        line: "classify problem.yml model.yml candidates.csv",
        target: "",
        screen: true,
        shown: "name,Price,Delivery,OnTime,Defects,Audit,Solvency,category
Ashdown,12.85,22,94.7,620,71,sound,Approved
Bellamy,11.45,14,97.6,200,67,sound,Preferred
Corvane,11.85,25,93.9,400,76,sound,Approved
Delamere,12.55,23,96.3,290,69,strong,Approved
Emberley,11.10,18,95.9,270,79,sound,Approved
Fairholm,13.10,23,95.5,30,71,sound,Approved
Grantley,13.90,15,99.2,660,76,sound,Approved
Hollis,13.60,26,91.3,410,72,fair,Approved
Ingram,10.80,7,97,110,83,strong,Preferred
Jessop,15.60,32,95.1,1140,53,fair,Phase out
",
    },
    Step {
        line: "describe alternatives problem.yml decisions.csv",
        target: "",
        screen: true,
        shown: "alternatives: 20
classified: 20
category 0: 5
category 1: 10
category 2: 5
",
    },
    Step {
        line: "classification-accuracy problem.yml model.yml decisions.csv",
        target: "",
        screen: true,
        shown: "20/20
",
    },
    Step {
        line: "classification-accuracy problem.yml model.yml disputed.csv",
        target: "",
        screen: true,
        shown: "18/20
",
    },
    Step {
        line: "classify problem.yml model.yml disputed.csv",
        target: "sorted.csv",
        screen: false,
        shown: "",
    },
    Step {
        line: "learn classification-model problem.yml decisions.csv",
        target: "learned.yml",
        screen: false,
        shown: "",
    },
    Step {
        line: "classification-accuracy problem.yml learned.yml decisions.csv",
        target: "",
        screen: true,
        shown: "20/20
",
    },
    Step {
        line: "classify problem.yml learned.yml candidates.csv",
        target: "",
        screen: true,
        shown: "name,Price,Delivery,OnTime,Defects,Audit,Solvency,category
Ashdown,12.85,22,94.7,620,71,sound,Approved
Bellamy,11.45,14,97.6,200,67,sound,Approved
Corvane,11.85,25,93.9,400,76,sound,Approved
Delamere,12.55,23,96.3,290,69,strong,Approved
Emberley,11.10,18,95.9,270,79,sound,Approved
Fairholm,13.10,23,95.5,30,71,sound,Approved
Grantley,13.90,15,99.2,660,76,sound,Approved
Hollis,13.60,26,91.3,410,72,fair,Approved
Ingram,10.80,7,97,110,83,strong,Preferred
Jessop,15.60,32,95.1,1140,53,fair,Phase out
",
    },
    Step {
        line: "learn classification-model problem.yml disputed.csv",
        target: "refutation.txt",
        screen: false,
        shown: "",
    },
    Step {
        line: "check-refutation problem.yml disputed.csv refutation.txt",
        target: "",
        screen: true,
        shown: "accepted
",
    },
    Step {
        line: "check-refutation problem.yml disputed.csv by-hand.txt",
        target: "",
        screen: true,
        shown: "accepted
",
    },
    Step {
        line: "encode problem.yml disputed.csv --encoding separation",
        target: "formula.cnf",
        screen: false,
        shown: "",
    },
    Step {
        line: "learn classification-model problem.yml disputed.csv --max-conflicts 2",
        target: "",
        screen: true,
        shown: "lincs-refutation 1 separation
3175 -1085 0 2222 2221 154 150 153 151 152 0
3176 -792 0 1587 1586 0
lincs: limit of 2 reached
",
    },
    Step {
        line: "generate classification-problem 4 3 --random-seed 3",
        target: "drawn-problem.yml",
        screen: false,
        shown: "",
    },
    Step {
        line: "generate classification-model drawn-problem.yml --random-seed 4",
        target: "drawn-model.yml",
        screen: false,
        shown: "",
    },
    Step {
        line: "describe model drawn-problem.yml drawn-model.yml",
        target: "",
        screen: true,
        shown: "model: 4 criteria, 2 boundaries
criterion 0 boundary 1: at most 0.72
criterion 0 boundary 2: at most 0.489
criterion 1 boundary 1: at least \"v0\"
criterion 1 boundary 2: at least \"v1\"
criterion 2 boundary 1: at least \"v0\"
criterion 2 boundary 2: at least \"v1\"
criterion 3 boundary 1: at least 8
criterion 3 boundary 2: at least 83
boundary 1: weights [0.413904607922392887, 0.635408245755860954, 0.014551333872271625, 0.311236863379143089]
boundary 2: weights [0.413904607922392887, 0.635408245755860954, 0.014551333872271625, 0.311236863379143089]
",
    },
    Step {
        line: "generate classified-alternatives drawn-problem.yml drawn-model.yml 3 --random-seed 5",
        target: "",
        screen: true,
        shown: "name,Criterion 1,Criterion 2,Criterion 3,Criterion 4,category
Alternative 1,0.325,v4,v0,45,Category 3
Alternative 2,0.175,v2,v0,35,Category 3
Alternative 3,0.808,v0,v0,9,Category 1
",
    },
    Step {
        line: "generate classified-alternatives drawn-problem.yml drawn-model.yml 1000 --random-seed 6",
        target: "others.csv",
        screen: false,
        shown: "",
    },
    Step {
        line: "rehearse 4 3 200 3",
        target: "",
        screen: true,
        shown: "criteria 4
categories 3
rows 200
variables 67966
clauses 152494
restored 200/200
kind: ncs-classification-model
format_version: 1
accepted_values:
  - kind: thresholds
    thresholds: [0.7, 0.489]
  - kind: thresholds
    thresholds: [\"v0\", \"v1\"]
  - kind: thresholds
    thresholds: [\"v0\", \"v1\"]
  - kind: thresholds
    thresholds: [29, 29]
sufficient_coalitions:
  - &coalitions
    kind: roots
    upset_roots:
      - [0, 1]
  - *coalitions
",
    },
];

#[test]
fn the_commands_of_users_write_what_it_shows(rt: HostRuntime) -> Result<(), Fail> {
    follow(&rt, rt.alloc(), &FILES, &STEPS)
}
